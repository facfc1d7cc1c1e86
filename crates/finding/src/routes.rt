// How many names are compared, on records.
ghost use Rattle.std.specs.Prelude.{◌≡◌};
ghost use Rattle.finding.specs.Comparisons.{comparisons, compared_of};

use crate::Totals;
use crate::lists::compare_lists;
use job::laying::Lay;
use refusal::Refusal;

#[tactic(auto, using(crate::proofs::ComparedRows::comparisons_cut))]
pub fn compare<J: Lay>(job: &J) -> Result<Totals, Refusal>
    ensures { compared_of result ≡ comparisons (J.job job.now) }
{
    let mut a = [0u64; 260];
    let mut b = [0u64; 260];
    let flat = job.lay(&mut a, &mut b);
    compare_lists(flat)
}
