// What a sheet's lines tell: rows 4, 2, 3 and 5, and the facts. The definitions and their laws are the substance; the
// reader is above.
#![tactic(auto)]

ghost use Rattle.std.specs.Prelude.{◌≡◌};
ghost use Rattle.facts.specs.Facts.{sheet_told};

use refusal::Refusal;
use route::Route;

// What a sheet that reads tells: both routes and the done list, an array and a length, here and
// below, by the rule of fixed memory and no heap.
#[derive(Clone, Copy)]
pub struct Records {
    pub old: Route,
    pub new: Route,
    pub done_len: usize,
    pub done: [u32; 64],
}

// Reading's answer in plain numbers, as 01 says it: a refusal's two, or 0, 0 and the facts.
#[derive(Clone, Copy)]
pub struct Sheet {
    pub number: u32,
    pub second: u64,
    pub old: Route,
    pub new: Route,
    pub done_len: usize,
    pub done: [u32; 64],
}

impl From<Result<Records, Refusal>> for Sheet {
    ghost from_gives = { λ r a. a ≡ sheet_told r };

    #[tactic(auto, unfolding(crate::specs::Facts::failed))]
    fn from(r: Result<Records, Refusal>) -> Sheet {
        match r {
            Ok(t) => {
                let old = t.old;
                let new = t.new;
                let done = t.done;
                Sheet {
                    number: 0,
                    second: 0,
                    old,
                    new,
                    done_len: t.done_len,
                    done,
                }
            }
            Err(e) => {
                let none = Route::empty();
                Sheet {
                    number: e.row.number(),
                    second: e.second,
                    old: none,
                    new: none,
                    done_len: 0,
                    done: [0u32; 64],
                }
            }
        }
    }
}
