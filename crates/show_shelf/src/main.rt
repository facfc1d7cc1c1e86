// Puts three editions of the loft's route on a shelf, and judges one job of the first edition against each later one.
#![tactic(auto)]

use answering::Judged;
use refusal::Outcome;
use route::Route;
use samples::lines::{end, number};
use shelf::Shelf;
use std::io;

mod editions;

fn put(rt: &impl Print, s: &mut Shelf, edition: u32, route: &Route) -> io::Result<()> {
    let o = Outcome::from(shelf::storing::put(s, edition, route));
    number(rt, b"put ", edition as u64)?;
    number(rt, b": ", o.number as u64)?;
    number(rt, b" ", o.second)?;
    end(rt)
}

// What judge answers, with its listing.
fn judge(rt: &impl Print, s: &Shelf, edition: u32, target: u32) -> io::Result<()> {
    let done = [10, 20, 30, 40, 50, 55, 60];
    let mut work = [0u8; 8192];
    let a = Judged::from(shelf::between::judge(s, edition, target, &done, &mut work));
    let mut out = [0u8; 7053];
    let n = listing::printing::write_listing(a, &mut out).unwrap_or(0);
    number(rt, b"judge ", edition as u64)?;
    number(rt, b" against ", target as u64)?;
    rt.write_all(b":\n")?;
    let k = counts::within(n, &out);
    rt.write_all(&out[..k])
}

fn main(rt: HostRuntime) -> io::Result<()> {
    let mut s = Shelf::empty();
    put(&rt, &mut s, 1, &editions::first())?;
    put(&rt, &mut s, 2, &editions::second())?;
    put(&rt, &mut s, 3, &editions::third())?;
    // a number that isn't above the last, and a route with nothing on it
    put(&rt, &mut s, 3, &editions::third())?;
    put(&rt, &mut s, 4, &Route::empty())?;
    judge(&rt, &s, 1, 2)?;
    judge(&rt, &s, 1, 3)?;
    // a target that isn't later, and one that isn't there
    judge(&rt, &s, 2, 1)?;
    judge(&rt, &s, 1, 4)
}
