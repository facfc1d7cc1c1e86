// The tokens of a sheet's lines: fixed texts, numbers, lists. Each reader takes a place, and answers the place past its
// token or where the layout breaks, so that a line is straight code.
// Version, bytes and place stay apart: a struct of the three, with the place's bound as a ghost field, proves on
// `text`, but then each contract has to say that version and bytes are those given, in place of `from ≤ length s.now`.
#![tactic(auto)]

pub mod lists;
pub mod numbers;
pub mod texts;

// The layout breaks: the byte that breaks it.
#[derive(Clone, Copy, Debug, PartialEq, Eq)]
pub struct Broken {
    pub at: usize,
}

#[derive(Clone, Copy)]
pub struct Numeral {
    pub at: usize,
    pub value: u64,
}

// What is kept of a list's entries: a mask, one above the highest, how many, and whether one was not above all before
// it. The mask is that of the entries where all are below 64.
#[derive(Clone, Copy)]
pub struct Entries {
    pub mask: u64,
    pub top: u64,
    pub count: u64,
    pub falls: bool,
}

#[derive(Clone, Copy)]
pub struct Listed {
    pub at: usize,
    pub entries: Entries,
}
