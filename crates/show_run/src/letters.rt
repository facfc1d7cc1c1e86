// The route parts of 01's examples, and a job that has gone round twice.
use samples::letters;
use show_ran::say;
use std::io;

pub fn show(rt: &impl Print) -> io::Result<()> {
    say(rt, b"A", letters::a().job())?;
    say(rt, b"B", letters::b().job())?;
    say(rt, b"E", letters::e().job())?;
    say(rt, b"E, written", letters::e_written().job())?;
    say(rt, b"H", letters::h().job())?;
    say(rt, b"I", letters::i().job())?;
    say(rt, b"J", letters::j().job())?;
    say(rt, b"K", letters::k().job())?;
    say(rt, b"L", letters::l().job())?;
    say(rt, b"twice round", letters::round().job())
}
