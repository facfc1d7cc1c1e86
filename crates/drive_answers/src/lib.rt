// What an operation answers, as numbers.
#![tactic(auto)]

use answering::Judged;
use drive_out::Answer;
use facts::Sheet;
use out_slice::Wrote;
use reader::Counts;
use refusal::Refusal;
use route::{Fired, Marking, Places, Route, Step};
use slicing::Sliced;
use std::alloc::AllocError;

// What fires answers.
pub fn fired(out: &mut Answer, r: Result<Marking, Refusal>) -> Result<(), AllocError> {
    let f = Fired::from(r);
    out.list(&[u64::from(f.number), f.second, f.marking.tokens])
}

pub fn sliced(out: &mut Answer, r: &Sliced) -> Result<(), AllocError> {
    out.list(&[u64::from(r.number), r.second, r.kept])?;
    out.list(&r.table)
}

pub fn judged(out: &mut Answer, r: &Judged, work: &[u8]) -> Result<(), AllocError> {
    let [number, dropped, len] = [r.number, r.dropped, r.len].map(u64::from);
    out.list(&[number, r.second, r.kept, dropped, len])?;
    out.list(&r.order)?;
    out.number(r.marking.tokens)?;
    out.list(&r.after)?;
    out.list(&r.writers)?;
    out.runs(work)
}

// A record's numbers.
pub fn record(s: &Step) -> [u64; 6] {
    let [name, reads, writes] = [s.name, s.reads, s.writes].map(u64::from);
    [name, s.ins, s.outs, reads, writes, u64::from(s.cloth)]
}

fn records(out: &mut Answer, list: &[Step]) -> Result<(), AllocError> {
    for s in list {
        out.list(&record(s))?;
    }
    Ok(())
}

// A place count, the mask of the start places, and how many steps.
pub fn head(places: Places, len: usize) -> [u64; 3] {
    [places.count, places.start, len as u64]
}

fn route(out: &mut Answer, r: &Route) -> Result<(), AllocError> {
    out.list(&head(r.places, r.len))?;
    records(out, &r.steps)
}

pub fn sheet(out: &mut Answer, s: &Sheet) -> Result<(), AllocError> {
    out.list(&[u64::from(s.number), s.second])?;
    route(out, &s.old)?;
    route(out, &s.new)?;
    out.number(s.done_len as u64)?;
    out.list(&s.done)
}

pub fn wrote(out: &mut Answer, r: &Wrote, s: &[u8]) -> Result<(), AllocError> {
    out.list(&[u64::from(r.number), r.second, r.written])?;
    out.runs(s)
}

pub fn printed(out: &mut Answer, r: &Wrote, work: &[u8], s: &[u8]) -> Result<(), AllocError> {
    wrote(out, r, work)?;
    out.runs(s)
}

pub fn counts(out: &mut Answer, c: &Counts) -> Result<(), AllocError> {
    out.list(&[u64::from(c.number), c.second])?;
    out.list(&head(c.old_places, c.old_len))?;
    out.list(&head(c.new_places, c.new_len))?;
    out.number(c.done_len as u64)
}

// A lent list afterwards: its length, then each record.
pub fn lent(out: &mut Answer, list: &[Step]) -> Result<(), AllocError> {
    out.number(list.len() as u64)?;
    records(out, list)
}
