// A route by value as numbers.
ghost use Rattle.std.specs.Prelude.{◌≤◌, length};
ghost use Rattle.route.specs.Steps.{steps_of};
ghost use Rattle.flat.specs.Flat.{Laid};

use crate::put;
use route::{Route, Step};

// Lays the steps, at most 65 of them, since row 4 refuses the 65th; how many numbers there are.
#[tactic(auto, using(crate::proofs::FlatSteps::flat_lengths))]
pub fn lay(r: &Route, into: &mut [u64]) -> usize
    requires { 260 ≤ length into.old }
    ensures { Laid (steps_of r.now) result into.new }
{
    let steps: &[Step] = &r.steps;
    // By index: the 65th step, past the end of the array, is laid too, as a blank one.
    for i in 0..r.len {
        if Route::STEPS <= i {
            put(into, i, Step::blank());
            return 4 * i + 4;
        }
        put(into, i, steps[i]);
    }
    4 * r.len
}
