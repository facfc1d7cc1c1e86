// 01's examples, and a job that has gone round twice.
use crate::say;
use samples::letters;
use std::io;

pub fn show(rt: &impl Print) -> io::Result<()> {
    say(rt, b"A", letters::a().job())?;
    say(rt, b"B", letters::b().job())?;
    say(rt, b"C", letters::c().job())?;
    say(rt, b"D", letters::d().job())?;
    say(rt, b"E", letters::e().job())?;
    say(rt, b"E, written", letters::e_written().job())?;
    say(rt, b"F", letters::f().job())?;
    say(rt, b"G", letters::g().job())?;
    say(rt, b"H", letters::h().job())?;
    say(rt, b"I", letters::i().job())?;
    say(rt, b"J", letters::j().job())?;
    say(rt, b"K", letters::k().job())?;
    say(rt, b"L", letters::l().job())?;
    say(rt, b"twice round", letters::round().job())?;
    say(rt, b"twice round, moved", letters::round_moved().job())
}
