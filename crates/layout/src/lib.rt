// The layout of a sheet: the one table of the eleven words. The parts and the points are what the definitions speak of.
#![tactic(auto)]

pub mod words;

// 01's nine words, and 02's cloth and start.
#[derive(Clone, Copy)]
pub enum Word {
    Old,
    New,
    Job,
    Done,
    Step,
    In,
    Out,
    Read,
    Write,
    Cloth,
    Start,
}

// Which part of the sheet a line belongs to; a head opens its part.
#[derive(Clone, Copy)]
pub enum Part {
    OldRoute,
    NewRoute,
    JobPart,
}

// Where a reader stands between two bytes. The word is the last that was met, or is being read.
#[derive(Clone, Copy)]
pub enum Point {
    // before the first byte
    Top,
    // at the start of a line
    Open(Part),
    // past a line's bracket, where its first letter says which line it is
    Choice(Part),
    // in a word, some letters past
    Letters(Word, Part, usize),
    // past a word
    Past(Word, Part),
    // at a number's first digit
    Digit(Word, Part),
    // past a digit of a number, where that many more may follow; none may follow a lone 0
    Digits(Word, Part, usize),
    // at the bracket of the list of that word, of the mark, or of the start line
    Gap(Word, Part),
    // past the closing bracket of a step's list, or of the mark
    Closed(Word, Part),
    // at the LF of a line whose last word it is
    Lf(Word, Part),
    // no sheet goes on so
    Stuck,
}
