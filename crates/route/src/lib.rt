// A route by value, its places and steps, its marking, and firing's answer.
#![tactic(auto)]

ghost use Rattle.std.specs.Prelude.{◌≡◌};
ghost use Rattle.route.specs.Firing.{fired_of};

use refusal::Refusal;

pub mod firing;
pub mod steps;

// Places and variables are bit masks: place p at bit p. `cloth` is the mark of a step that cuts cloth.
#[derive(Clone, Copy)]
pub struct Step {
    pub name: u32,
    pub cloth: bool,
    pub ins: u64,
    pub outs: u64,
    pub reads: u32,
    pub writes: u32,
}

// A route's places: how many there are, and those with a token at the start.
#[derive(Clone, Copy)]
pub struct Places {
    pub count: u64,
    pub start: u64,
}

// The first `len` of the steps: 64 and a length, by the rule of fixed memory and no heap, here and in what is made of
// routes. A length over 64 is that of a list that was too long.
#[derive(Clone, Copy)]
pub struct Route {
    pub places: Places,
    pub len: usize,
    pub steps: [Step; 64],
}

// The places with a token.
#[derive(Clone, Copy)]
pub struct Marking {
    pub tokens: u64,
}

// What fires answers in plain numbers, as 01 says it and C stores it: a refusal's two, or 0, 0 and the marking
// at the end.
#[derive(Clone, Copy)]
pub struct Fired {
    pub number: u32,
    pub second: u64,
    pub marking: Marking,
}

impl From<Result<Marking, Refusal>> for Fired {
    ghost from_gives = { λ r a. a ≡ fired_of r };

    fn from(r: Result<Marking, Refusal>) -> Fired {
        match r {
            Ok(marking) => Fired {
                number: 0,
                second: 0,
                marking,
            },
            Err(e) => Fired {
                number: e.row.number(),
                second: e.second,
                marking: Marking { tokens: 0 },
            },
        }
    }
}
