// A part of show_run: run's answer as a line, and a wrong record for each row.
#![tactic(auto)]

use job::laying::RouteJob;
use route::Route;
use samples::{letters, lines};
use std::io;

pub mod faults;

pub fn say(rt: &impl Print, label: &[u8], job: RouteJob) -> io::Result<()> {
    lines::fired(rt, label, running::routes::run(&job))
}

// Nothing done.
fn say_bare(rt: &impl Print, label: &[u8], old: &Route, new: &Route) -> io::Result<()> {
    let done = &[];
    say(rt, label, RouteJob { old, new, done })
}

// The routes of example A.
fn say_done(rt: &impl Print, label: &[u8], done: &[u32]) -> io::Result<()> {
    let x = letters::a();
    let job = x.job();
    say(rt, label, RouteJob { done, ..job })
}
