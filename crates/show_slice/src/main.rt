// Prints the slices and tables of 01's examples, of looped jobs and of jobs with a silent test: a line with the number,
// the second number and the kept occurrences as a mask, then a line for each row of the table that isn't empty.
#![tactic(auto)]

use job::laying::RouteJob;
use route::Route;
use samples::{letters, lines, route_of, step};
use slicing::Sliced;
use std::io;

fn say_row(rt: &impl Print, i: usize, row: u64) -> io::Result<()> {
    if row == 0 {
        return Ok(());
    }
    lines::number(rt, b"  row ", i as u64)?;
    lines::number(rt, b" ", row)?;
    lines::end(rt)
}

fn say_table(rt: &impl Print, table: &[u64]) -> io::Result<()> {
    for (i, row) in table.iter().enumerate() {
        say_row(rt, i, *row)?;
    }
    Ok(())
}

fn say(rt: &impl Print, label: &[u8], job: RouteJob) -> io::Result<()> {
    let s = Sliced::from(slicing::slice(&job));
    lines::head(rt, label, s.number, s.second)?;
    lines::number(rt, b" kept ", s.kept)?;
    lines::end(rt)?;
    say_table(rt, &s.table)
}

// The new route is the old one.
fn say_same(rt: &impl Print, label: &[u8], r: &Route, done: &[u32]) -> io::Result<()> {
    let (old, new) = (r, r);
    say(rt, label, RouteJob { old, new, done })
}

// A step that reads what its last run wrote, done three times: the middle run feeds the last.
fn show_loops(rt: &impl Print) -> io::Result<()> {
    let done = &[10, 20, 20, 20];
    let fed = &route_of(2, 1, [step(10, 1, 2, 0, 1), step(20, 2, 2, 2, 2)]);
    say_same(rt, b"looped, each run feeds the next", fed, done)?;
    let fresh = &route_of(2, 1, [step(10, 1, 2, 0, 1), step(20, 2, 2, 1, 2)]);
    say_same(rt, b"looped, only the last run counts", fresh, done)?;
    let silent = &route_of(2, 1, [step(10, 1, 2, 0, 1), step(20, 2, 2, 1, 0)]);
    say_same(rt, b"a step that writes nothing", silent, &[10, 20, 20])
}

// A test that writes nothing is kept where two branches begin behind it, though one alone was taken; else dropped.
fn show_branch(rt: &impl Print) -> io::Result<()> {
    let done = &[10, 20, 410];
    let choice = step(10, 1, 2, 0, 1);
    let test = step(20, 2, 4, 1, 0);
    let racing = step(410, 4, 8, 1, 4);
    let two = &route_of(4, 1, [choice, test, racing, step(420, 4, 8, 1, 4)]);
    say_same(rt, b"a silent test, two branches behind it", two, done)?;
    let one = &route_of(4, 1, [choice, test, racing]);
    say_same(rt, b"a silent test, one way on", one, done)
}

fn main(rt: HostRuntime) -> io::Result<()> {
    say(&rt, b"A", letters::a().job())?;
    say(&rt, b"D", letters::d().job())?;
    say(&rt, b"E", letters::e().job())?;
    say(&rt, b"E, written", letters::e_written().job())?;
    say(&rt, b"F", letters::f().job())?;
    say(&rt, b"K", letters::k().job())?;
    show_loops(&rt)?;
    show_branch(&rt)?;
    say(&rt, b"twice round", letters::round().job())?;
    say(&rt, b"refused", letters::h().job())
}
