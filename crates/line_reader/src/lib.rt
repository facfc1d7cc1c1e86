// One line of a sheet: read by tokens, looked at for its rows, and made a record.
#![tactic(auto)]

use tokens::Entries;

pub mod reading;
pub mod rows;

// The end of a step's line: the place past it, and whether the mark stood.
#[derive(Clone, Copy)]
pub struct Ending {
    pub at: usize,
    pub cloth: bool,
}

// A step's line: the place past it, the name, what is kept of its lists, and whether it is marked.
#[derive(Clone, Copy)]
pub struct StepLine {
    pub at: usize,
    pub name: u64,
    pub ins: Entries,
    pub outs: Entries,
    pub reads: Entries,
    pub writes: Entries,
    pub cloth: bool,
}
