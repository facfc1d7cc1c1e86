// What the listing shows of a list of occurrences: its rows, its last writers, its figures.
#![tactic(auto)]

ghost use Rattle.std.specs.Prelude.{◌≡◌};
ghost use Rattle.answering.specs.Answer.{judged_of};

use refusal::Refusal;
use route::Marking;

pub mod answers;

// A job that moves: what the listing shows. Occurrence k is bit k - 1 of a mask and entry k - 1 of `after`; an order
// and a writer hold occurrence numbers. Arrays and a length, here and below, by the rule of fixed memory and no heap.
#[derive(Clone, Copy)]
pub struct Moved {
    pub kept: u64,
    pub dropped: u32,
    pub len: u32,
    pub order: [u8; 64],
    pub marking: Marking,
    pub after: [u64; 64],
    pub writers: [u8; 32],
}

// Judge's answer in plain numbers, as 01 says it: a refusal's two, or 0, 0 and the rest.
#[derive(Clone, Copy)]
pub struct Judged {
    pub number: u32,
    pub second: u64,
    pub kept: u64,
    pub dropped: u32,
    pub len: u32,
    pub order: [u8; 64],
    pub marking: Marking,
    pub after: [u64; 64],
    pub writers: [u8; 32],
}

impl From<Result<Moved, Refusal>> for Judged {
    ghost from_gives = { λ r a. a ≡ judged_of r };

    fn from(r: Result<Moved, Refusal>) -> Judged {
        match r {
            Ok(m) => {
                let order = m.order;
                let after = m.after;
                let writers = m.writers;
                Judged {
                    number: 0,
                    second: 0,
                    kept: m.kept,
                    dropped: m.dropped,
                    len: m.len,
                    order,
                    marking: m.marking,
                    after,
                    writers,
                }
            }
            Err(e) => Judged {
                number: e.row.number(),
                second: e.second,
                kept: 0,
                dropped: 0,
                len: 0,
                order: [0u8; 64],
                marking: Marking { tokens: 0 },
                after: [0u64; 64],
                writers: [0u8; 32],
            },
        }
    }
}

// A list of occurrences: how many, their numbers (no heap), and the marking at its end.
#[derive(Clone, Copy)]
pub struct Placed {
    pub len: usize,
    pub order: [u8; 64],
    pub marking: Marking,
}
