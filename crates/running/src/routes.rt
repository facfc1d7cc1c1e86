// The operation run, on records.
ghost use Rattle.std.specs.Prelude.{◌≡◌};
ghost use Rattle.running.specs.Run.{ran};
ghost use Rattle.route.specs.Firing.{fired_of};

use crate::lists::run_lists;
use job::laying::Lay;
use refusal::Refusal;
use route::Marking;

// The rows to 9, and the old route's marking.
#[tactic(auto, using(crate::proofs::LongLists::ran_cut))]
pub fn run<J: Lay>(job: &J) -> Result<Marking, Refusal>
    ensures { fired_of result ≡ ran (J.job job.now) }
{
    let mut a = [0u64; 260];
    let mut b = [0u64; 260];
    let flat = job.lay(&mut a, &mut b);
    run_lists(flat)
}
