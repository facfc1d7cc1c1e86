// Lines on standard output.
use refusal::Refusal;
use route::{Fired, Marking};
use std::io;

// A word and a number.
pub fn number(rt: &impl Print, word: &[u8], n: u64) -> io::Result<()> {
    rt.write_all(word)?;
    rt.print(n)
}

pub fn end(rt: &impl Print) -> io::Result<()> {
    rt.write_all(b"\n")
}

// What a line of each answer begins with. The output, the label and what is shown stay apart, as for any printer.
pub fn head(rt: &impl Print, label: &[u8], first: u32, second: u64) -> io::Result<()> {
    rt.write_all(label)?;
    number(rt, b" ", first as u64)?;
    number(rt, b" ", second)
}

// What fires answers.
pub fn fired(rt: &impl Print, label: &[u8], r: Result<Marking, Refusal>) -> io::Result<()> {
    let f = Fired::from(r);
    head(rt, label, f.number, f.second)?;
    number(rt, b" ", f.marking.tokens)?;
    end(rt)
}
