// 64 places and 65, 64 steps and 65, 64 done names and 65.
use job::laying::RouteJob;
use route::Route;
use samples::{chains, letters};
use show_ran::say;
use std::io;

// The new route is the old one.
fn say_same(rt: &impl Print, label: &[u8], r: &Route, done: &[u32]) -> io::Result<()> {
    let (old, new) = (r, r);
    say(rt, label, RouteJob { old, new, done })
}

fn show_places(rt: &impl Print) -> io::Result<()> {
    let mut r = chains::chain();
    say_same(rt, b"64 places", &r, &[100, 101])?;
    r.places.count = 65;
    say_same(rt, b"65 places", &r, &[100, 101])
}

// A list of steps that is too long.
fn long(len: usize) -> Route {
    let r = chains::full();
    Route { len, ..r }
}

fn show_steps(rt: &impl Print) -> io::Result<()> {
    say_same(rt, b"64 steps", &chains::full(), &[100])?;
    let mut r = long(65);
    say_same(rt, b"65 steps", &r, &[100])?;
    r.steps[5].ins = 0;
    say_same(rt, b"65 steps, an earlier fault", &r, &[100])?;
    let r = long(18446744073709551615);
    say_same(rt, b"as many steps as fit", &r, &[100])
}

fn show_done(rt: &impl Print) -> io::Result<()> {
    let k = &letters::k().old;
    let mut done = [20u32; 64];
    done[0] = 10;
    say_same(rt, b"64 done", k, &done)?;
    let mut more = [20u32; 65];
    more[0] = 10;
    say_same(rt, b"65 done", k, &more)?;
    more[3] = 0;
    say_same(rt, b"65 done, an earlier fault", k, &more)?;
    let job = RouteJob {
        old: &letters::a_old(),
        new: &long(18446744073709551615),
        done: &more,
    };
    say(rt, b"two long lists", job)
}

pub fn show(rt: &impl Print) -> io::Result<()> {
    show_places(rt)?;
    show_steps(rt)?;
    show_done(rt)
}
