// Reads a sheet, writes its records back into slices one byte short, exactly long enough and longer, and then records
// that rows 4, 2, 3 and 5 refuse. For each it shows the refusal's two numbers, the bytes written, how many bytes agree
// with the sheet, and the slice, which holds dots before.
#![tactic(auto)]

use facts::Sheet;
use job::laying::RouteJob;
use out_slice::Wrote;
use route::Route;
use std::io;

fn number(rt: &impl Print, n: u64) -> io::Result<()> {
    rt.print(n)?;
    rt.write_all(b" ")
}

// How many bytes agree.
fn agree(a: &[u8], b: &[u8]) -> u64 {
    a.iter().zip(b).take_while(|(x, y)| x == y).count() as u64
}

fn show(rt: &impl Print, s: &[u8], job: RouteJob, out: &mut [u8]) -> io::Result<()> {
    let w = Wrote::from(writer::writes::write(&job, out));
    number(rt, w.number as u64)?;
    number(rt, w.second)?;
    number(rt, w.written)?;
    number(rt, agree(s, out))?;
    rt.write_all(out)?;
    rt.write_all(b"\n")
}

// With a slice of `room` bytes.
fn room(rt: &impl Print, s: &[u8], job: RouteJob, room: usize) -> io::Result<()> {
    let mut out = [46u8; 512];
    let k = counts::within(room, &out);
    show(rt, s, job, &mut out[..k])
}

fn rooms(rt: &impl Print, s: &[u8], job: RouteJob) -> io::Result<()> {
    let n = s.len();
    if 0 < n && n < 500 {
        room(rt, s, job, n - 1)?;
        room(rt, s, job, n)?;
        room(rt, s, job, n + 8)?;
    }
    Ok(())
}

fn no_step(r: &Route) -> Route {
    Route { len: 0, ..*r }
}

fn many_places(r: &Route) -> Route {
    let mut q = *r;
    q.places.count = 65;
    q
}

fn no_in_place(r: &Route) -> Route {
    let mut q = *r;
    q.steps[1].ins = 0;
    q
}

fn name_twice(r: &Route) -> Route {
    let mut q = *r;
    q.steps[2].name = 10;
    q
}

fn refusals(rt: &impl Print, s: &[u8], job: RouteJob) -> io::Result<()> {
    let new = &no_step(job.new);
    room(rt, s, RouteJob { new, ..job }, 16)?;
    let r = job.old;
    for old in &[many_places(r), no_in_place(r), name_twice(r)] {
        room(rt, s, RouteJob { old, ..job }, 16)?;
    }
    Ok(())
}

fn show_sheet(rt: &impl Print, s: &[u8]) -> io::Result<()> {
    let x = Sheet::from(reader::reads::read(s));
    let k = counts::within(x.done_len, &x.done);
    let job = RouteJob {
        old: &x.old,
        new: &x.new,
        done: &x.done[..k],
    };
    rooms(rt, s, job)?;
    refusals(rt, s, job)
}

fn main(rt: HostRuntime) -> io::Result<()> {
    let mut buffer = [0u8; 65536];
    let n = input::read_full(&mut rt.stdin(), &mut buffer)?;
    show_sheet(&rt, &buffer[..n])
}
