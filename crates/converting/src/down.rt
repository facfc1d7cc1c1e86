// Down: a sheet of the present layout by 01's. Rows 1, 4, 2, 3, 5, 6 and 7, then 22, then 15.
ghost use Rattle.std.specs.Prelude.{◌≡◌, ◌≤◌, length};
ghost use Rattle.flat.specs.Flat.{steps_in};
ghost use Rattle.job.specs.Job.{job_in};
ghost use Rattle.job.specs.Lines.{LinesPass};
ghost use Rattle.out_slice.specs.OutSlice.{wrote_of};
ghost use Rattle.refusal.specs.Rows.{first, each_line};
ghost use Rattle.refusal.specs.Refusal.{outcome_of};
ghost use Rattle.converting.specs.Beyond.{says_name, says_step, beyond_route, beyond_rows};
ghost use Rattle.converting.specs.Down.{lowered, out_lowered};

use crate::nets::check_nets;
use job::FlatJob;
use job::checks::{job_line, next_head};
use opening::implied;
use reader::lists::{Lists, read_lists};
use refusal::{Refusal, Row};
use route::{Places, Step};
use version::Version;
use writer::writes::write_text;

fn says_name(name: u32) -> bool
    ensures { result ≡ says_name name }
{
    name as u64 <= Version::SCOPE.numbers.greatest
}

#[tactic(auto, unfolding(crate::specs::Beyond::says_step))]
fn says_step(s: Step) -> bool
    ensures { result ≡ says_step s }
{
    says_name(s.name) && !s.cloth
}

// Row 22 over step lines, top down; the first is on `line`.
fn check_steps(steps: &[u64], line: u64) -> Result<(), Refusal>
    requires { (line ≤ 1000) × (length (steps_in steps.now) ≤ 64) }
    ensures { outcome_of result ≡ first (each_line says_step 22 line (steps_in steps.now)) }
{
    for (i, s) in flat::steps(steps).enumerate() {
        if !says_step(s) {
            return Err(Row::BeyondScope.at(line + i as u64));
        }
    }
    Ok(())
}

// The same over done lines.
fn check_done(done: &[u32], line: u64) -> Result<(), Refusal>
    requires { (line ≤ 1000) × (length done.now ≤ 64) }
    ensures { outcome_of result ≡ first (each_line says_name 22 line done.now) }
{
    for (i, &name) in done.iter().enumerate() {
        if !says_name(name) {
            return Err(Row::BeyondScope.at(line + i as u64));
        }
    }
    Ok(())
}

// Row 22 over a route's lines; its head is on `line`.
fn check_route(places: Places, steps: &[u64], line: u64) -> Result<(), Refusal>
    requires { (places.count ≤ 64) × ((line ≤ 900) × (length (steps_in steps.now) ≤ 64)) }
    ensures { outcome_of result ≡ first (beyond_route line places (steps_in steps.now)) }
{
    if places.start != implied(places.count, steps).start {
        return Err(Row::BeyondScope.at(line + 1));
    }
    check_steps(steps, line + 2)
}

// Row 22 over all lines, top down.
fn check_said(job: FlatJob) -> Result<(), Refusal>
    requires { LinesPass (job_in job) }
    ensures { outcome_of result ≡ first (beyond_rows (job_in job.entry)) }
{
    check_route(job.old_places, job.old, 1)?;
    check_route(job.new_places, job.new, next_head(1, job.old))?;
    check_done(job.done, job_line(job) + 1)
}

// Any bytes, any out slice: the bytes written.
pub fn down(sheet: &[u8], out: &mut [u8]) -> Result<usize, Refusal>
    ensures value { wrote_of result ≡ lowered sheet.now (length out.old) }
    ensures out_after { out.new ≡ out_lowered sheet.now out.old }
{
    let mut lists = Lists::EMPTY;
    let c = read_lists(sheet, &mut lists)?;
    let job = lists.job(c);
    check_nets(Version::PRESENT.numbers, job)?;
    check_said(job)?;
    write_text(Version::SCOPE.numbers, job, out)
}
