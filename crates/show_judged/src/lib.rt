// An answer of judge: a line with its number and second number, and for a job that moves what the listing shows.
#![tactic(auto)]

use answering::Moved;
use refusal::{Outcome, Refusal};
use samples::lines;
use samples::lines::number;
use std::io;

// Nothing where there is none.
fn say_entry(rt: &impl Print, x: u8) -> io::Result<()> {
    if x != 0 {
        number(rt, b" ", x as u64)?;
    }
    Ok(())
}

fn say_order(rt: &impl Print, order: [u8; 64], len: u32) -> io::Result<()> {
    rt.write_all(b"  order")?;
    for x in &order {
        say_entry(rt, *x)?;
    }
    number(rt, b" length ", len as u64)?;
    lines::end(rt)
}

fn say_mask(rt: &impl Print, i: u64, mask: u64) -> io::Result<()> {
    if mask != 0 {
        number(rt, b"  after ", i)?;
        number(rt, b" mask ", mask)?;
        lines::end(rt)?;
    }
    Ok(())
}

fn say_after(rt: &impl Print, after: [u64; 64]) -> io::Result<()> {
    for (i, mask) in after.iter().enumerate() {
        say_mask(rt, i as u64 + 1, *mask)?;
    }
    Ok(())
}

fn say_writer(rt: &impl Print, v: u64, x: u8) -> io::Result<()> {
    if x != 0 {
        number(rt, b"  value ", v)?;
        number(rt, b" ", x as u64)?;
        lines::end(rt)?;
    }
    Ok(())
}

fn say_writers(rt: &impl Print, writers: [u8; 32]) -> io::Result<()> {
    for (v, x) in writers.iter().enumerate() {
        say_writer(rt, v as u64, *x)?;
    }
    Ok(())
}

fn say_moved(rt: &impl Print, a: Moved) -> io::Result<()> {
    number(rt, b"  kept mask ", a.kept)?;
    number(rt, b" dropped ", a.dropped as u64)?;
    number(rt, b" marking mask ", a.marking.tokens)?;
    lines::end(rt)?;
    let order = a.order;
    say_order(rt, order, a.len)?;
    let after = a.after;
    say_after(rt, after)?;
    let writers = a.writers;
    say_writers(rt, writers)
}

pub fn say(rt: &impl Print, label: &[u8], r: Result<Moved, Refusal>) -> io::Result<()> {
    let o = Outcome::from(r);
    lines::head(rt, label, o.number, o.second)?;
    lines::end(rt)?;
    if let Ok(m) = r {
        say_moved(rt, m)?;
    }
    Ok(())
}
