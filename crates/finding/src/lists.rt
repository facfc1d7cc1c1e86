// The steps of both routes for the done names, over lists of steps.
ghost use Rattle.std.specs.Prelude.{◌≡◌, ◌≤◌, length, IfOk};
ghost use Rattle.job.specs.Job.{job_in};
ghost use Rattle.job.specs.Lines.{LinesPass};
ghost use Rattle.running.specs.Run.{ran};
ghost use Rattle.finding.specs.Comparisons.{comparisons, compared_of};
ghost use Rattle.finding.specs.inner.Gathering.{gathered_ran, Gathers};

use crate::{Gathered, Totals};
use job::FlatJob;
use job::checks::check_lines;
use refusal::Refusal;
use running::lists::{begin, perform};

// Rows 6 to 9 with 23, where all lines pass; the steps done go into `occurrences`, the new route's steps for them into
// `matches`.
pub fn gather(
    job: FlatJob,
    occurrences: &mut [u64],
    matches: &mut [u64],
) -> Result<Gathered, Refusal>
    requires lines_pass { LinesPass (job_in job) }
    requires in_bounds { (256 ≤ length occurrences.old) × (256 ≤ length matches.old) }
    ensures ran { gathered_ran result ≡ ran (job_in job.entry) }
    ensures gathers { IfOk result (λ g. Gathers (job_in job.entry) g occurrences.new matches.new) }
{
    let begun = begin(job, occurrences)?;
    let matched = perform(job.new, job.done, matches);
    Ok(Gathered { begun, matched })
}

// The rows to 9, and how many names each route's look-ups compared.
pub fn compare_lists(job: FlatJob) -> Result<Totals, Refusal>
    ensures { compared_of result ≡ comparisons (job_in job.entry) }
{
    check_lines(job)?;
    let mut occurrences = [0u64; 256];
    let mut matches = [0u64; 256];
    let g = gather(job, &mut occurrences, &mut matches)?;
    let b = g.begun;
    Ok(Totals {
        run: b.compared,
        matched: g.matched,
    })
}
