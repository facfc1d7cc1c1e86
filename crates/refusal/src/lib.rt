// What stops a job: the row that refuses, and the second number beside its own; and the first row that refuses.
#![tactic(auto)]

ghost use Rattle.std.specs.Prelude.{◌≡◌, eqb};
ghost use Rattle.refusal.specs.Rows.{pass, refuse};
ghost use Rattle.refusal.specs.Refusal.{number_of, outcome_of};

// The rows of the table of refusals, by their numbers.
#[derive(Clone, Copy, PartialEq, Eq)]
pub enum Row {
    Layout = 1,
    OutOfRange = 2,
    BadList = 3,
    BadLength = 4,
    NameTwice = 5,
    UnusedPlace = 6,
    NoStart = 7,
    UnknownStep = 8,
    CannotFire = 9,
    TooManyKept = 10,
    NotInNewRoute = 11,
    UsesDiffer = 12,
    NoFitOrder = 13,
    ShortWork = 14,
    ShortSlice = 15,
    BadOrder = 16,
    TooEarly = 17,
    StepCannotFire = 18,
    NoEdition = 19,
    BadEdition = 20,
    BadShelf = 21,
    BeyondScope = 22,
    UnwrittenRead = 23,
}

impl Row {
    pub fn number(self) -> u32
        ensures { result ≡ number_of self }
    {
        self as u32
    }

    pub fn at(self, second: u64) -> Refusal
        ensures { result ≡ record { row = self; second = second } }
    {
        Refusal { row: self, second }
    }
}

#[derive(Clone, Copy, PartialEq, Eq)]
pub struct Refusal {
    pub row: Row,
    pub second: u64,
}

// A refusal in plain numbers, as 01 says it: 0 and 0 where nothing is refused.
#[derive(Clone, Copy)]
pub struct Outcome {
    pub number: u32,
    pub second: u64,
}

impl Outcome {
    pub fn pass() -> Outcome
        ensures { result ≡ pass }
    {
        Outcome {
            number: 0,
            second: 0,
        }
    }

    pub fn refuse(number: u32, second: u64) -> Outcome
        ensures { result ≡ refuse number second }
    {
        Outcome { number, second }
    }

    pub fn passed(self) -> bool
        ensures { result ≡ eqb self.number 0 }
    {
        self.number == 0
    }
}

impl<T: Drop> From<Result<T, Refusal>> for Outcome {
    ghost from_gives = { λ r o. o ≡ outcome_of r };

    fn from(r: Result<T, Refusal>) -> Outcome {
        match r {
            Ok(_) => Outcome::pass(),
            Err(e) => Outcome::refuse(e.row.number(), e.second),
        }
    }
}
