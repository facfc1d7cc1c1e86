// Reads sheets from standard input, each ended by `%`, and writes for each: the refusal's two numbers, for each route
// its place count and the mask of its start places, the two step counts, how many done names, and the length of the job
// part. Before that the first sheet is read cut off at every length.
#![tactic(auto)]

ghost use Rattle.std.specs.Prelude.{◌<◌, length, IfSome};

use facts::Sheet;
use route::Places;
use std::io;

fn number(rt: &impl Print, n: u64) -> io::Result<()> {
    rt.print(n)?;
    rt.write_all(b" ")
}

fn places(rt: &impl Print, p: Places) -> io::Result<()> {
    number(rt, p.count)?;
    number(rt, p.start)
}

fn show(rt: &impl Print, s: &[u8]) -> io::Result<()> {
    let x = Sheet::from(reader::reads::read(s));
    number(rt, x.number as u64)?;
    number(rt, x.second)?;
    places(rt, x.old.places)?;
    places(rt, x.new.places)?;
    number(rt, x.old.len as u64)?;
    number(rt, x.new.len as u64)?;
    number(rt, x.done_len as u64)?;
    let part = reader::part::job_part(s);
    number(rt, part.len() as u64)?;
    rt.write_all(b"\n")
}

// Every beginning.
fn show_cuts(rt: &impl Print, s: &[u8]) -> io::Result<()> {
    // By index: it is the length of a beginning, and no iterator of a slice gives its beginnings.
    for k in 0..s.len() {
        show(rt, &s[..k])?;
    }
    Ok(())
}

// Where the first sheet ends.
fn end(s: &[u8]) -> Option<usize>
    ensures { IfSome result (λ i. i < length s.now) }
{
    s.iter().position(|b| *b == b'%')
}

// The first sheet, cut off.
fn show_first(rt: &impl Print, s: &[u8]) -> io::Result<()> {
    if let Some(i) = end(s) {
        show_cuts(rt, &s[..i])?;
    }
    Ok(())
}

// The sheets in turn: a turn of the loop cuts one off the front.
fn show_all(rt: &impl Print, s: &[u8]) -> io::Result<()> {
    let mut rest = s;
    while let Some(i) = end(rest) {
        show(rt, &rest[..i])?;
        rest = &rest[i..][1..];
    }
    Ok(())
}

fn main(rt: HostRuntime) -> io::Result<()> {
    let mut buffer = [0u8; 65536];
    let n = input::read_full(&mut rt.stdin(), &mut buffer)?;
    show_first(&rt, &buffer[..n])?;
    show_all(&rt, &buffer[..n])
}
