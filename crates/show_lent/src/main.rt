// The operations over jobs whose routes are lent lists of 0, 1, 64, 65 and 100 step records, over one whose sixth
// record has no in-place, and over one whose answer takes a search. A line shows both lengths and then, of each
// operation, its two numbers and: run, its marking; slice, its mask of kept ones; try, its marking; judge, its order's
// length, its marking and the first byte of the work slice; write, how many bytes it wrote and the first of them. Both
// slices hold 46 before. A line of reading shows how many steps a route of the sheet has and both lengths.
#![tactic(auto)]

ghost use Rattle.std.specs.Prelude.{◌≤◌};

use answering::Judged;
use arrays::Array;
use lent::LentJob;
use out_slice::Wrote;
use refusal::Refusal;
use route::{Fired, Marking, Step};
use running::routes::run;
use show_filled::{PLACES, number, show_read};
use slicing::Sliced;
use std::io;
use trying::trying::try_order;

// A route of 64 steps, and 36 records that hold 0.
fn hundred() -> [Step; 100] {
    let full = samples::chains::full();
    let mut a = [samples::step(0, 0, 0, 0, 0); 100];
    a[..64].copy_from_slice(&full.steps);
    a
}

// The first byte.
fn begins(rt: &impl Print, s: &[u8]) -> io::Result<()> {
    if let Some(b) = s.first() {
        number(rt, u64::from(*b))?;
    }
    Ok(())
}

// What run and try answer.
fn fired(rt: &impl Print, r: Result<Marking, Refusal>) -> io::Result<()> {
    let f = Fired::from(r);
    number(rt, u64::from(f.number))?;
    number(rt, f.second)?;
    number(rt, f.marking.tokens)
}

fn show_slice(rt: &impl Print, job: LentJob) -> io::Result<()> {
    let r = Sliced::from(slicing::slice(&job));
    number(rt, u64::from(r.number))?;
    number(rt, r.second)?;
    number(rt, r.kept)
}

fn show_judge(rt: &impl Print, job: LentJob) -> io::Result<()> {
    let mut work = [46u8; 8192];
    let r = Judged::from(judging::judging::judge(&job, &mut work));
    number(rt, u64::from(r.number))?;
    number(rt, r.second)?;
    number(rt, u64::from(r.len))?;
    number(rt, r.marking.tokens)?;
    begins(rt, &work)
}

fn show_write(rt: &impl Print, job: LentJob) -> io::Result<()> {
    let mut out = [46u8; 6000];
    let r = Wrote::from(writer::writes::write(&job, &mut out));
    number(rt, u64::from(r.number))?;
    number(rt, r.second)?;
    number(rt, r.written)?;
    begins(rt, &out)
}

fn show(rt: &impl Print, old: Array, new: Array) -> io::Result<()> {
    rt.print(old.len as u64)?;
    number(rt, new.len as u64)?;
    let job = arrays::job(PLACES, &old, PLACES, &new, &[100, 101]);
    fired(rt, run(&job))?;
    show_slice(rt, job)?;
    fired(rt, try_order(&job, &[1, 2]))?;
    show_judge(rt, job)?;
    show_write(rt, job)?;
    rt.write_all(b"\n")
}

// The first `len` of the records, of which there are a hundred.
fn first(steps: [Step; 100], len: usize) -> Array
    requires { len ≤ 100 }
{
    Array { steps, len }
}

// The steps 100 and 101 each write a variable, and the new route has 101 before 100.
fn show_turned(rt: &impl Print, a: [Step; 100]) -> io::Result<()> {
    let mut old = a;
    old[0] = samples::step(100, 1, 2, 0, 1);
    old[1] = samples::step(101, 2, 4, 0, 2);
    let mut new = a;
    new[0] = samples::step(101, 1, 2, 0, 2);
    new[1] = samples::step(100, 2, 4, 0, 1);
    show(rt, first(old, 64), first(new, 64))
}

// Jobs of 0, 1, 64, 65 and 100 records.
fn show_jobs(rt: &impl Print, a: [Step; 100]) -> io::Result<()> {
    show(rt, first(a, 0), first(a, 64))?;
    show(rt, first(a, 64), first(a, 0))?;
    show(rt, first(a, 1), first(a, 1))?;
    show(rt, first(a, 64), first(a, 64))?;
    show(rt, first(a, 65), first(a, 64))?;
    show(rt, first(a, 64), first(a, 65))?;
    show(rt, first(a, 100), first(a, 64))?;
    show(rt, first(a, 64), first(a, 100))?;
    show(rt, first(a, 100), first(a, 100))?;
    let mut b = a;
    b[5] = samples::step(105, 0, 64, 0, 0);
    show(rt, first(b, 100), first(b, 64))
}

fn main(rt: HostRuntime) -> io::Result<()> {
    let a = hundred();
    show_jobs(&rt, a)?;
    show_turned(&rt, a)?;
    let seven = [samples::step(7, 0, 0, 0, 0); 100];
    show_read(&rt, first(a, 1), first(seven, 0), first(seven, 0))?;
    show_read(&rt, first(a, 1), first(seven, 1), first(seven, 0))?;
    show_read(&rt, first(a, 1), first(seven, 1), first(seven, 1))?;
    show_read(&rt, first(a, 1), first(seven, 65), first(seven, 100))?;
    show_read(&rt, first(a, 64), first(seven, 100), first(seven, 1))?;
    show_read(&rt, first(a, 64), first(seven, 64), first(seven, 65))
}
