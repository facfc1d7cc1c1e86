// The limit of 16 kept, a looped job, the search at its worst, and what a work slice holds afterwards.
use crate::say;
use job::laying::RouteJob;
use refusal::Outcome;
use route::Route;
use samples::{chains, letters, lines, route_of, step};
use std::io;

// The first n of the chain's names are done.
fn say_chains(rt: &impl Print, label: &[u8], old: &Route, new: &Route, n: usize) -> io::Result<()> {
    let done = chains::names();
    let k = counts::within(n, &done);
    let done = &done[..k];
    say(rt, label, RouteJob { old, new, done })
}

pub fn show(rt: &impl Print) -> io::Result<()> {
    let line = &chains::line(16);
    let more = &chains::line(17);
    say_chains(rt, b"16 kept", line, &chains::turned(16), 16)?;
    say_chains(rt, b"17 kept", more, &chains::turned(17), 17)?;
    say_chains(rt, b"17 kept, straight", more, more, 17)?;
    let old = &route_of(2, 1, [step(10, 1, 2, 0, 1), step(20, 2, 2, 2, 2)]);
    let (new, done) = (old, &[10, 20, 20, 20]);
    say(rt, b"looped", RouteJob { old, new, done })?;
    say_chains(rt, b"16 kept and no order", line, &chains::stuck(), 16)
}

// How many bytes of a work slice are 7, as all were before.
fn sevens(work: &[u8]) -> u64 {
    work.iter().filter(|b| **b == 7).count() as u64
}

fn say_work(rt: &impl Print, label: &[u8], job: RouteJob, work: &mut [u8]) -> io::Result<()> {
    let r = judging::judging::judge(&job, work);
    rt.write_all(label)?;
    lines::number(rt, b" answers ", u64::from(Outcome::from(r).number))?;
    lines::number(rt, b", sevens left ", sevens(work))?;
    lines::end(rt)
}

fn say_8200(rt: &impl Print, label: &[u8], job: RouteJob) -> io::Result<()> {
    let mut work = [7u8; 8200];
    say_work(rt, label, job, &mut work)
}

pub fn show_work(rt: &impl Print) -> io::Result<()> {
    let a = letters::a();
    let job = a.job();
    let mut short = [7u8; 8191];
    say_work(rt, b"8191 bytes", job, &mut short)?;
    let mut enough = [7u8; 8192];
    say_work(rt, b"8192 bytes", job, &mut enough)?;
    say_8200(rt, b"8200 bytes", job)?;
    say_8200(rt, b"8200 bytes, straight", letters::straight().job())?;
    say_8200(rt, b"8200 bytes, refused by 8", letters::h().job())?;
    say_8200(rt, b"8200 bytes, no order", letters::c().job())
}
