// A step from its fields, the blank step, no places, a route's limits and the empty route.
ghost use Rattle.std.specs.Prelude.{◌≡◌, ◌%◌};
ghost use Rattle.route.specs.Steps.{blank, no_route};

use crate::{Places, Route, Step};

// The lowest 32 bits, by a mask: a cast may lose nothing (`overflow_cast-result`).
pub fn low(n: u64) -> u32
    ensures { result ≡ n % 4294967296 }
{
    (n & 0xffff_ffff) as u32
}

impl Step {
    // The record with 0 in every field, and no mark: a const, which a derived `Default` isn't.
    pub const BLANK: Step = Step {
        name: 0,
        cloth: false,
        ins: 0,
        outs: 0,
        reads: 0,
        writes: 0,
    };

    pub fn blank() -> Step
        ensures { result ≡ blank }
    {
        Step::BLANK
    }

    // The record of a mark and five numbers, as a caller has them: the name and the variables by their lowest 32 bits.
    pub fn of(name: u64, cloth: bool, ins: u64, outs: u64, reads: u64, writes: u64) -> Step
        ensures { result ≡ record {
          name = name % 4294967296;
          cloth = cloth;
          ins = ins;
          outs = outs;
          reads = reads % 4294967296;
          writes = writes % 4294967296;
        } }
    {
        Step {
            name: low(name),
            cloth,
            ins,
            outs,
            reads: low(reads),
            writes: low(writes),
        }
    }
}

impl Places {
    // No place, and so none with a token.
    pub const NONE: Places = Places { count: 0, start: 0 };
}

impl Route {
    pub const PLACES: u64 = 64;

    pub const STEPS: usize = 64;

    pub const ENTRIES: u32 = 8;

    pub const KEPT: usize = 16;

    pub fn empty() -> Route
        ensures { result ≡ no_route }
    {
        Route {
            places: Places::NONE,
            len: 0,
            steps: [Step::BLANK; 64],
        }
    }
}
