// The operation fire, at markings and masks of any kind.
use route::Marking;
use samples::{lines, step};
use std::io;

fn fire(rt: &impl Print, label: &[u8], tokens: u64, ins: u64, outs: u64) -> io::Result<()> {
    let r = route::firing::fire(Marking { tokens }, step(1, ins, outs, 0, 0));
    lines::fired(rt, label, r)
}

pub fn show(rt: &impl Print) -> io::Result<()> {
    fire(rt, b"fire", 1, 1, 2)?;
    fire(rt, b"fire, others stay", 13, 1, 2)?;
    fire(rt, b"fire, in and out", 3, 3, 6)?;
    fire(rt, b"fire, no token", 2, 1, 4)?;
    fire(rt, b"fire, a token lies there", 3, 1, 2)?;
    fire(rt, b"fire, no places at all", 5, 0, 0)?;
    let all = 18446744073709551615;
    fire(rt, b"fire, every place", all, all, 0)
}
