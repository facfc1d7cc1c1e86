// The rows from 6 to 12 with 23, where all lines pass: what try and judge start from.
#![tactic(auto)]

ghost use Rattle.std.specs.Prelude.{◌≡◌, ◌≤◌, length, Err};
ghost use Rattle.flat.specs.Flat.{steps_in};
ghost use Rattle.refusal.specs.Refusal.{outcome_of};
ghost use Rattle.job.specs.Job.{job_in, job_line, new_start};
ghost use Rattle.job.specs.Lines.{LinesPass};
ghost use Rattle.running.specs.Run.{ran};
ghost use Rattle.occurrences.specs.Occurrences.{occurrences_of};
ghost use Rattle.matching.specs.KeptRows.{kept_rows, rows_to12};
ghost use Rattle.matching.specs.inner.Matches.{MatchesOf};
ghost use Rattle.matching.specs.inner.Pairs.{done_in};
ghost use Rattle.preparing.specs.inner.Preparing.{Weighed, Filled, PairsOf};

use finding::lists::gather;
use job::FlatJob;
use job::checks::job_line;
use matching::Pairs;
use matching::rows::kept_rows;
use matching::same::same_mask;
use matching::straight::straight_end;
use occurrences::narrow;
use refusal::Refusal;
use route::Marking;
use slice::sweeping::keep;
use slice::variables::variables_of;

// A job whose lines pass, after the rows to 12: what they say, the line of `(job)` and, where no row to 9 refuses, the
// new route's start, where the straight list ends, the kept occurrences, and the new route's variables. The pairs that
// it was made from go beside it.
#[derive(Clone, Copy)]
pub struct Prepared {
    pub rows: Result<(), Refusal>,
    pub line: u64,
    pub start: Marking,
    pub straight: Option<Marking>,
    pub kept: u64,
    pub vars: u32,
}

// A job that a row to 9 refuses has nothing more.
fn refused(e: Refusal, line: u64) -> Prepared
    ensures { (result.rows ≡ Err e) × (result.line ≡ line) }
{
    Prepared {
        rows: Err(e),
        line,
        start: Marking { tokens: 0 },
        straight: None,
        kept: 0,
        vars: 0,
    }
}

// The occurrences against the new route's steps for them; `line` is that of `(job)`.
fn weigh(new: &[u64], pairs: Pairs, start: Marking, line: u64) -> Prepared
    requires { line ≤ 900 }
    ensures rows { MatchesOf (steps_in new.now) (done_in pairs.entry) pairs.entry.matches.now
        → outcome_of result.rows ≡ kept_rows line start.tokens (steps_in new.now) (done_in pairs.entry) }
    ensures weighed { MatchesOf (steps_in new.now) (done_in pairs.entry) pairs.entry.matches.now
        → Weighed line start.tokens (steps_in new.now) (done_in pairs.entry) result }
{
    let vars = variables_of(new);
    let kept = keep(pairs.occurrences, vars);
    let same = same_mask(pairs);
    let straight = straight_end(pairs.matches, same, start);
    let rows = kept_rows(kept, same, pairs.matches, straight, line);
    Prepared {
        rows,
        line,
        start,
        straight,
        kept,
        vars,
    }
}

// The lists' beginnings, which are the occurrences and the new route's steps for them.
pub fn pairs_of<'a>(job: FlatJob, occurrences: &'a [u64], matches: &'a [u64]) -> Pairs<'a>
    requires in_bounds { (256 ≤ length occurrences.now) × (256 ≤ length matches.now) }
    requires filled { Filled (job_in job) occurrences.now matches.now }
    ensures { PairsOf (job_in job.entry) result }
{
    let end = 4 * job.done.len();
    Pairs {
        occurrences: &occurrences[..end],
        matches: &matches[..end],
    }
}

// The occurrences and the new route's steps for them go into the lent lists.
pub fn prepare(job: FlatJob, occurrences: &mut [u64], matches: &mut [u64]) -> Prepared
    requires lines_pass { LinesPass (job_in job) }
    requires in_bounds { (256 ≤ length occurrences.old) × (256 ≤ length matches.old) }
    ensures rows { outcome_of result.rows ≡ rows_to12 (job_in job.entry) }
    ensures line { result.line ≡ job_line (job_in job.entry) }
    ensures filled { (ran (job_in job.entry)).number ≡ 0 → Filled (job_in job.entry) occurrences.new matches.new }
    ensures weighed { (ran (job_in job.entry)).number ≡ 0 → Weighed (job_line (job_in job.entry))
        (new_start (job_in job.entry)) (job_in job.entry).new (occurrences_of (job_in job.entry)) result }
{
    let line = job_line(job);
    let g = match gather(job, occurrences, matches) {
        Ok(g) => g,
        Err(e) => return refused(e, line),
    };
    narrow(job.old, job.done.len(), occurrences);
    let b = g.begun;
    let pairs = pairs_of(job, occurrences, matches);
    weigh(job.new, pairs, b.start, line)
}
