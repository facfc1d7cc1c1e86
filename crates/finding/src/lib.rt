// The done names found in both routes, each from where the one before was found, and how many names that compared.
#![tactic(auto)]

ghost use Rattle.std.specs.Prelude.{◌≡◌};
ghost use Rattle.finding.specs.Comparisons.{compared_of};

use refusal::Refusal;
use running::Begun;

pub mod lists;
pub mod routes;

// A job that no row to 9 refuses: what stands of it there, and how many of the new route's names were compared.
#[derive(Clone, Copy)]
pub struct Gathered {
    pub begun: Begun,
    pub matched: usize,
}

// How many names were compared: by the run on the old route, and by the match with the new one.
#[derive(Clone, Copy)]
pub struct Totals {
    pub run: usize,
    pub matched: usize,
}

// The same in plain numbers, as 01 says it: a refusal's two, or 0, 0 and both totals.
#[derive(Clone, Copy)]
pub struct Compared {
    pub number: u32,
    pub second: u64,
    pub run: usize,
    pub matched: usize,
}

impl From<Result<Totals, Refusal>> for Compared {
    ghost from_gives = { λ r a. a ≡ compared_of r };

    fn from(r: Result<Totals, Refusal>) -> Compared {
        match r {
            Ok(t) => Compared {
                number: 0,
                second: 0,
                run: t.run,
                matched: t.matched,
            },
            Err(e) => Compared {
                number: e.row.number(),
                second: e.second,
                run: 0,
                matched: 0,
            },
        }
    }
}
