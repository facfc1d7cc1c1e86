// The operation try: an order that somebody hands in.
ghost use Rattle.std.specs.Prelude.{◌≡◌, true, cond, List, map, ℕ, suc, ◌<◌, length, None};
ghost use Rattle.mask.specs.Mask.{has};
ghost use Rattle.route.specs.declared.Step.{Step};
ghost use Rattle.job.specs.Job.{job_in};
ghost use Rattle.job.specs.Lines.{LinesPass};
ghost use Rattle.precedence.specs.Order.{in_turn};
ghost use Rattle.matching.specs.inner.Pairs.{done_in, matched_in};
ghost use Rattle.route.specs.Firing.{fired_of};
ghost use Rattle.trying.specs.Try.{same_list, try_list, tried};
ghost use Rattle.trying.specs.inner.TryPrepared.{TryPrepared};

use job::FlatJob;
use job::checks::check_lines;
use job::laying::Lay;
use matching::Pairs;
use order_entries::by_rows;
use preparing::{Prepared, pairs_of, prepare};
use refusal::Refusal;
use route::Marking;

// The order is 1, 2, .., len.
fn in_turn(order: &[u8], len: usize) -> bool
    ensures { result ≡ same_list order.now (map suc (in_turn 0 len)) }
{
    order.len() == len
        && order
            .iter()
            .enumerate()
            .all(|(i, b)| usize::from(*b) == i + 1)
}

// Where the straight list ends, if the order is the straight list.
fn straight_end(straight: Option<Marking>, order: &[u8], len: usize) -> Option<Marking>
    ensures { result ≡ cond (same_list order.now (map suc (in_turn 0 len))) straight None }
{
    if in_turn(order, len) { straight } else { None }
}

// After row 12: the straight list first, and then the rows.
fn try_prepared(p: Prepared, pairs: Pairs, order: &[u8]) -> Result<Marking, Refusal>
    requires { (i : ℕ) → has p.kept i ≡ true → i < length (matched_in pairs) }
    ensures { (from : ℕ) (new : List Step) → TryPrepared from new (done_in pairs.entry) p (matched_in pairs.entry)
        → fired_of result ≡ try_list from new (done_in pairs.entry) order.now }
{
    let straight = p.straight;
    let Some(marking) = straight_end(straight, order, flat::count(pairs.occurrences)) else {
        let start = p.start;
        return by_rows(order, p.kept, pairs.occurrences, pairs.matches, start);
    };
    Ok(marking)
}

// Try from row 6 on. `prepare` and `pairs_of` are what it shares with judge.
pub fn try_checked(job: FlatJob, order: &[u8]) -> Result<Marking, Refusal>
    requires { LinesPass (job_in job) }
    ensures { fired_of result ≡ tried (job_in job.entry) order.now }
{
    let mut occurrences = [0u64; 256];
    let mut matches = [0u64; 256];
    let p = prepare(job, &mut occurrences, &mut matches);
    p.rows?;
    let pairs = pairs_of(job, &occurrences, &matches);
    try_prepared(p, pairs, order)
}

// Try over lists of steps.
pub fn try_lists(job: FlatJob, order: &[u8]) -> Result<Marking, Refusal>
    ensures { fired_of result ≡ tried (job_in job.entry) order.now }
{
    check_lines(job)?;
    try_checked(job, order)
}

// Any records, any done list, any order.
#[tactic(auto, using(crate::proofs::TryRows::tried_cut))]
pub fn try_order<J: Lay>(job: &J, order: &[u8]) -> Result<Marking, Refusal>
    ensures { fired_of result ≡ tried (J.job job.now) order.now }
{
    let mut a = [0u64; 260];
    let mut b = [0u64; 260];
    let flat = job.lay(&mut a, &mut b);
    try_lists(flat, order)
}
