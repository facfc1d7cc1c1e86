// What the programs that show the engine at work share: 01's examples as records, routes at the limits, and how an
// answer is printed.
#![tactic(auto)]

ghost use Rattle.std.specs.Prelude.{◌≤◌};

use route::{Places, Route, Step};

pub mod chains;
pub mod letters;
pub mod lines;

pub fn step(name: u32, ins: u64, outs: u64, reads: u32, writes: u32) -> Step {
    Step::of(name as u64, false, ins, outs, reads as u64, writes as u64)
}

// A route of these steps: its place count, and the mask of its start places.
pub fn route_of<const N: usize>(count: u64, start: u64, steps: [Step; N]) -> Route
    requires { N ≤ 64 }
{
    let mut r = Route::empty();
    r.places = Places { count, start };
    r.len = N;
    r.steps[..N].copy_from_slice(&steps);
    r
}
