// The operations over the shelf in hand.
#![tactic(auto)]

use answering::Judged;
use drive_load::Script;
use drive_load::arguments::Argument;
use drive_load::stop::Stop;
use drive_out::Answer;
use drive_script::operations::OverShelf;
use refusal::Outcome;
use route::Route;
use shelf::{Edition, Shelf};
use std::alloc::AllocError;

fn edition(script: &mut Script<'_>) -> Result<Edition, Stop> {
    Ok(Edition {
        number: u32::take(script)?,
        route: Route::take(script)?,
    })
}

// A shelf handed in whole: `len`, and editions counted.
fn whole(script: &mut Script<'_>) -> Result<Shelf, Stop> {
    let mut shelf = Shelf::empty();
    shelf.len = u64::take(script)? as usize;
    let count = script.count(Shelf::EDITIONS)?;
    for e in shelf.editions.iter_mut().take(count) {
        *e = edition(script)?;
    }
    Ok(shelf)
}

// An entry: its number, the route's places and `len`, and the records' numbers in runs.
fn entry(out: &mut Answer, e: &Edition) -> Result<(), AllocError> {
    let r = &e.route;
    out.number(u64::from(e.number))?;
    out.list(&drive_answers::head(r.places, r.len))?;
    let mut records = [[0; 6]; Route::STEPS];
    for (numbers, s) in records.iter_mut().zip(&r.steps) {
        *numbers = drive_answers::record(s);
    }
    out.runs(records.as_flattened())
}

// A shelf: `len`, then its entries.
fn shown(out: &mut Answer, shelf: &Shelf) -> Result<(), AllocError> {
    out.number(shelf.len as u64)?;
    for e in &shelf.editions {
        entry(out, e)?;
    }
    Ok(())
}

fn put(shelf: &mut Shelf, script: &mut Script<'_>, out: &mut Answer) -> Result<(), Stop> {
    let e = edition(script)?;
    let o = Outcome::from(shelf::storing::put(shelf, e.number, &e.route));
    out.list(&[u64::from(o.number), o.second])?;
    Ok(shown(out, shelf)?)
}

// The edition, the target, the done list and the work slice.
fn judge(shelf: &Shelf, script: &mut Script<'_>, out: &mut Answer) -> Result<(), Stop> {
    let edition = u32::take(script)?;
    let target = u32::take(script)?;
    let done = script.names()?;
    let mut work = script.fill()?;
    let r = Judged::from(shelf::between::judge(shelf, edition, target, &done, &mut work));
    Ok(drive_answers::judged(out, &r, &work)?)
}

pub fn answer(
    op: OverShelf,
    shelf: &mut Shelf,
    script: &mut Script<'_>,
    out: &mut Answer,
) -> Result<(), Stop> {
    match op {
        OverShelf::HandIn => {
            *shelf = whole(script)?;
            Ok(shown(out, shelf)?)
        }
        OverShelf::Put => put(shelf, script, out),
        OverShelf::Judge => judge(shelf, script, out),
    }
}
