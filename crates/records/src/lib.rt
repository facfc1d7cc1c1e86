// Lent lists of step records.
#![tactic(auto)]

ghost use Rattle.std.specs.Prelude.{◌≡◌, ◌≤◌, length};
ghost use Rattle.flat.specs.Flat.{steps_in, Laid};
ghost use Rattle.records.specs.Overlaid.{overlaid};

use flat::{put, step_at};
use route::Step;

// Lays a lent list's records as numbers, at most 65 of them, since row 4 refuses the 65th; how many numbers there are.
#[tactic(auto, using(crate::proofs::LaidRecords::laying))]
pub fn lay(steps: &[Step], into: &mut [u64]) -> usize
    requires { 260 ≤ length into.old }
    ensures { Laid steps.now result into.new }
{
    let laid = &steps[..steps.len().min(65)];
    for (i, s) in laid.iter().enumerate() {
        put(into, i, *s);
    }
    4 * laid.len()
}

// The first n steps of the numbers into a lent list.
pub fn fill(out: &mut [Step], n: usize, steps: &[u64])
    requires { (n ≤ length (steps_in steps.now)) × (n ≤ length out.old) }
    ensures { out.new ≡ overlaid n (steps_in steps.now) out.old }
{
    // By index: of a list written through `iter_mut` under `zip` a proof knows nothing, as its invariant can't name it.
    for k in 0..n {
        out[k] = step_at(steps, k);
    }
}
