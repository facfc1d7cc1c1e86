// Reading a sheet: layout and facts in one pass, into lent lists.
#![tactic(auto)]

ghost use Rattle.std.specs.Prelude.{◌≡◌};
ghost use Rattle.reader.specs.Refused.{counts_of};

use refusal::Refusal;
use route::Places;

pub mod lists;
pub mod part;
pub mod reads;

// What a sheet that reads tells besides the lists: both routes' places and all three lengths.
#[derive(Clone, Copy)]
pub struct Lengths {
    pub old_places: Places,
    pub old_len: usize,
    pub new_places: Places,
    pub new_len: usize,
    pub done_len: usize,
}

// The same in plain numbers, as 01 says it: a refusal's two, or 0, 0 and the counts.
#[derive(Clone, Copy)]
pub struct Counts {
    pub number: u32,
    pub second: u64,
    pub old_places: Places,
    pub old_len: usize,
    pub new_places: Places,
    pub new_len: usize,
    pub done_len: usize,
}

impl From<Result<Lengths, Refusal>> for Counts {
    ghost from_gives = { λ r a. a ≡ counts_of r };

    fn from(r: Result<Lengths, Refusal>) -> Counts {
        match r {
            Ok(l) => Counts {
                number: 0,
                second: 0,
                old_places: l.old_places,
                old_len: l.old_len,
                new_places: l.new_places,
                new_len: l.new_len,
                done_len: l.done_len,
            },
            Err(e) => Counts {
                number: e.row.number(),
                second: e.second,
                old_places: Places::NONE,
                old_len: 0,
                new_places: Places::NONE,
                new_len: 0,
                done_len: 0,
            },
        }
    }
}
