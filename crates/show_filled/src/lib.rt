// A part of show_lent: a sheet read into lent lists, and what stands in them then.
#![tactic(auto)]

use arrays::Array;
use reader::Counts;
use route::{Places, Step};
use std::io;

// 64 places, and a start on the first.
pub const PLACES: Places = Places {
    count: 64,
    start: 1,
};

pub fn number(rt: &impl Print, n: u64) -> io::Result<()> {
    rt.write_all(b" ")?;
    rt.print(n)
}

fn name(rt: &impl Print, n: u32) -> io::Result<()> {
    number(rt, n as u64)
}

// The names at both ends of the first 64 records, and of the records past them.
fn names(rt: &impl Print, l: [Step; 100]) -> io::Result<()> {
    name(rt, l[0].name)?;
    name(rt, l[63].name)?;
    name(rt, l[64].name)?;
    name(rt, l[99].name)
}

fn show_route(rt: &impl Print, places: Places, len: usize) -> io::Result<()> {
    number(rt, places.count)?;
    number(rt, places.start)?;
    number(rt, len as u64)
}

fn show_counts(rt: &impl Print, c: Counts) -> io::Result<()> {
    number(rt, u64::from(c.number))?;
    number(rt, c.second)?;
    show_route(rt, c.old_places, c.old_len)?;
    show_route(rt, c.new_places, c.new_len)?;
    number(rt, c.done_len as u64)
}

// A sheet read into the records lent and room for three names, which all hold 7: the answer, and what stands in the
// lists after it.
fn show_sheet(rt: &impl Print, sheet: &[u8], old: Array, new: Array) -> io::Result<()> {
    let mut a = old;
    let mut b = new;
    let mut done = [7u32; 3];
    let r = arrays::read(sheet, &mut a, &mut b, &mut done);
    show_counts(rt, Counts::from(r))?;
    names(rt, a.steps)?;
    names(rt, b.steps)?;
    for n in done {
        name(rt, n)?;
    }
    Ok(())
}

// A sheet of these steps in both routes and two names done, read into the records lent.
pub fn show_read(rt: &impl Print, steps: Array, old: Array, new: Array) -> io::Result<()> {
    rt.print(steps.len as u64)?;
    number(rt, old.len as u64)?;
    number(rt, new.len as u64)?;
    let mut out = [46u8; 6000];
    let job = arrays::job(PLACES, &steps, PLACES, &steps, &[100, 101]);
    let n = writer::writes::write(&job, &mut out).unwrap_or(0);
    show_sheet(rt, &out[..counts::within(n, &out)], old, new)?;
    rt.write_all(b"\n")
}
