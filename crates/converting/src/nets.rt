// Rows 6 and 7 of both routes, in the lines of a version.
ghost use Rattle.std.specs.Prelude.{◌≡◌, ◌+◌, ◌≤◌, length};
ghost use Rattle.flat.specs.Flat.{steps_in};
ghost use Rattle.job.specs.Job.{job_in};
ghost use Rattle.facts.specs.SheetRows.{start_line_count};
ghost use Rattle.refusal.specs.Rows.{first};
ghost use Rattle.refusal.specs.Refusal.{outcome_of};
ghost use Rattle.converting.specs.Nets.{net_rows};

use job::FlatJob;
use opening::open_at;
use refusal::Refusal;
use version::Numbers;

// How many start lines follow a head.
#[tactic(auto, using(crate::proofs::BothNets::counted))]
fn start_lines(v: Numbers) -> u64
    ensures value { result ≡ start_line_count v }
    ensures upper_bound { result ≤ 1 }
{
    u64::from(v.starts)
}

// The line of `(new`, where so many start lines follow the old route's head.
fn new_head(starts: u64, old: &[u64]) -> u64
    requires { (starts ≤ 1) × (length (steps_in old.now) ≤ 64) }
    ensures { result ≡ 2 + starts + length (steps_in old.now) }
{
    2 + starts + flat::count(old) as u64
}

pub(crate) fn check_nets(v: Numbers, job: FlatJob) -> Result<(), Refusal>
    requires places { (job.old_places.count ≤ 64) × (job.new_places.count ≤ 64) }
    requires steps { length (job_in job).old ≤ 64 }
    ensures { outcome_of result ≡ first (net_rows v (job_in job.entry)) }
{
    let starts = start_lines(v);
    let head = new_head(starts, job.old);
    open_at(job.old_places, job.old, 1, 1 + starts)?;
    open_at(job.new_places, job.new, head, head + starts)?;
    Ok(())
}
