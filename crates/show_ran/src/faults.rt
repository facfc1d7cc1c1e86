// A wrong record for each row, and for each place where it can stand.
use crate::{say, say_bare, say_done};
use job::laying::RouteJob;
use route::{Places, Route, Step};
use samples::{letters, route_of, step};
use std::io;

// Beside a sound new route.
fn say_old(rt: &impl Print, label: &[u8], r: &Route) -> io::Result<()> {
    say_bare(rt, label, r, &letters::a_new())
}

// Beside a sound old route.
fn say_new(rt: &impl Print, label: &[u8], r: &Route) -> io::Result<()> {
    say_bare(rt, label, &letters::a_old(), r)
}

fn say_step(rt: &impl Print, label: &[u8], s: Step) -> io::Result<()> {
    say_old(rt, label, &route_of(2, 1, [s]))
}

pub fn show_routes(rt: &impl Print) -> io::Result<()> {
    let none = &Route::empty();
    let bare = &route_of(4, 1, []);
    say_old(rt, b"4 old has no step", bare)?;
    say_new(rt, b"4 new has no step", bare)?;
    say_old(rt, b"2 no old place", none)?;
    say_new(rt, b"2 no new place", none)?;
    say_done(rt, b"2 done 0", &[10, 0])?;
    say_done(rt, b"8 done 65536", &[65536])?;
    say_done(rt, b"8 done 4294967295", &[4294967295])
}

pub fn show_steps(rt: &impl Print) -> io::Result<()> {
    say_step(rt, b"2 name 0", step(0, 1, 2, 0, 0))?;
    say_step(rt, b"0 name 65536", step(65536, 1, 2, 0, 0))?;
    say_step(rt, b"0 name 4294967295", step(4294967295, 1, 2, 0, 0))?;
    say_step(rt, b"2 place not below N", step(1, 1, 4, 0, 0))?;
    say_step(rt, b"3 in empty", step(1, 0, 2, 0, 0))?;
    say_step(rt, b"3 out empty", step(1, 1, 0, 0, 0))?;
    say_step(rt, b"3 nine reads", step(1, 1, 2, 511, 0))?;
    say_step(rt, b"3 nine writes", step(1, 1, 2, 0, 511))?;
    say_old(
        rt,
        b"3 nine in-places",
        &route_of(10, 1, [step(1, 511, 512, 0, 0)]),
    )?;
    let a = step(7, 1, 2, 0, 0);
    say_old(
        rt,
        b"5 name twice",
        &route_of(3, 1, [a, step(7, 2, 4, 0, 0)]),
    )?;
    say_old(rt, b"3 before 5", &route_of(3, 1, [a, step(7, 2, 0, 0, 0)]))
}

// Two steps that go round, from these start places.
fn round(start: u64) -> Route {
    route_of(2, start, [step(1, 1, 2, 0, 0), step(2, 2, 1, 0, 0)])
}

// A start on a place that isn't there.
fn show_beyond(rt: &impl Print) -> io::Result<()> {
    let beyond = &round(5);
    say_old(rt, b"2 old start not below N", beyond)?;
    say_new(rt, b"2 new start not below N", beyond)?;
    let both = &route_of(2, 4, [step(0, 1, 2, 0, 0)]);
    say_old(rt, b"2 start before 2 name", both)
}

// A route with a place that belongs to no step, and one with no start.
pub fn show_starts(rt: &impl Print) -> io::Result<()> {
    let a = letters::a_old();
    let places = Places { count: 5, start: 1 };
    let loose = &Route { places, ..a };
    let bare = &round(0);
    show_beyond(rt)?;
    say_old(rt, b"0 goes round", &round(1))?;
    say_old(rt, b"0 starts on both", &round(3))?;
    say_old(rt, b"6 old", loose)?;
    say_new(rt, b"6 new", loose)?;
    say_old(rt, b"7 old", bare)?;
    say_new(rt, b"7 new", bare)?;
    say_old(rt, b"6 before 7", &route_of(3, 0, [step(1, 1, 1, 0, 0)]))?;
    say_bare(rt, b"old 7 before new 6", bare, loose)?;
    say_done(rt, b"9 second line", &[10, 10])?;
    say_done(rt, b"8 after 9 is not reached", &[20, 40])
}

// Two steps in a row; of each, what it reads and what it writes.
fn pair(a: [u32; 2], b: [u32; 2]) -> Route {
    route_of(3, 1, [step(1, 1, 2, a[0], a[1]), step(2, 2, 4, b[0], b[1])])
}

// Routes whose steps read what some step writes, and routes that read what none writes.
pub fn show_reads(rt: &impl Print) -> io::Result<()> {
    let none = &pair([0, 1], [2, 4]);
    say_old(rt, b"0 reads what it writes", &pair([1, 1], [0, 0]))?;
    say_old(rt, b"0 reads what the next writes", &pair([2, 1], [1, 2]))?;
    say_old(rt, b"23 old", none)?;
    say_new(rt, b"23 new", none)?;
    say_old(rt, b"23 first of two", &pair([4, 0], [4, 0]))?;
    say_bare(
        rt,
        b"23 the other route writes it",
        &pair([0, 0], [1, 2]),
        &letters::a_old(),
    )?;
    show_reads_in_order(rt, none)
}

// Where such a route has other faults, or the other route has one.
fn show_reads_in_order(rt: &impl Print, none: &Route) -> io::Result<()> {
    let a = letters::a_old();
    let places = Places { count: 5, start: 1 };
    let loose = &Route { places, ..a };
    let places = Places { count: 3, start: 0 };
    say_old(rt, b"7 before 23", &Route { places, ..*none })?;
    say_bare(rt, b"old 23 before new 6", none, loose)?;
    say_bare(rt, b"old 6 before new 23", loose, none)?;
    let job = RouteJob {
        old: &a,
        new: none,
        done: &[40],
    };
    say(rt, b"23 before 8", job)
}
