// Rows 4, 2, 3 and 5 of lists of steps, line by line.
ghost use Rattle.std.specs.Prelude.{◌≡◌, [], ◌≤◌, ◌<◌, length, IfOk};
ghost use Rattle.refusal.specs.Rows.{first};
ghost use Rattle.refusal.specs.Refusal.{outcome_of};
ghost use Rattle.route.specs.Steps.{names};
ghost use Rattle.name_set.specs.inner.Hints.{Hinted};
ghost use Rattle.flat.specs.Flat.{steps_in};
ghost use Rattle.job.specs.Job.{job_in, job_line, after_steps};
ghost use Rattle.job.specs.Alone.{alone_rows};
ghost use Rattle.job.specs.Lines.{step_row, step_rows, head_rows, route_rows, line_rows};

use crate::FlatJob;
use crate::lines::{check_done, lists_fit, places_fit, start_fits, step_fits};
use opening::open;
use refusal::{Refusal, Row};
use route::{Marking, Places, Route, Step};

// The line of the head that follows a route's, whose own head is on `line`.
pub fn next_head(line: u64, steps: &[u64]) -> u64
    requires { (line ≤ 1000) × (length (steps_in steps.now) ≤ 64) }
    ensures { result ≡ after_steps line (steps_in steps.now) }
{
    line + 2 + flat::count(steps) as u64
}

// The line of `(job)`; the done lines follow.
pub fn job_line(job: FlatJob) -> u64
    requires { (length (job_in job).old ≤ 64) × (length (job_in job).new ≤ 64) }
    ensures value { result ≡ job_line (job_in job.entry) }
    ensures upper_bound { result ≤ 133 }
{
    next_head(next_head(1, job.old), job.new)
}

// The rows of one step's line, given the steps above it: there is room for one more.
fn check_step(
    count: u64,
    s: Step,
    earlier: &[u64],
    hint: &[u8; 256],
    line: u64,
) -> Result<(), Refusal>
    requires count_bound { (count ≤ 64) × (length (steps_in earlier.now) < 64) }
    requires hinted { Hinted (names (steps_in earlier.now)) hint.now }
    ensures { outcome_of result ≡ step_row line count (names (steps_in earlier.now)) s }
{
    if !step_fits(count, s) {
        return Err(Row::OutOfRange.at(line));
    }
    if !lists_fit(s) {
        return Err(Row::BadList.at(line));
    }
    if name_set::has(hint, earlier, s.name) {
        return Err(Row::NameTwice.at(line));
    }
    Ok(())
}

// The steps, top down; the first is on `line`.
fn check_steps(count: u64, steps: &[u64], line: u64) -> Result<(), Refusal>
    requires { (count ≤ 64) × (line ≤ 1000) }
    ensures { outcome_of result ≡ first (step_rows line count [] (steps_in steps.now)) }
{
    let mut hint = [0u8; 256];
    for (i, s) in flat::steps(steps).enumerate() {
        if Route::STEPS <= i {
            return Err(Row::BadLength.at(line + 64));
        }
        check_step(count, s, &steps[..4 * i], &hint, line + i as u64)?;
        name_set::add(&mut hint, s.name, i);
    }
    Ok(())
}

// A route's head, and the start line that follows it.
fn check_head(places: Places, line: u64) -> Result<(), Refusal>
    requires { line < 1000 }
    ensures { outcome_of result ≡ first (head_rows line places) }
{
    if !places_fit(places.count) {
        return Err(Row::OutOfRange.at(line));
    }
    if !start_fits(places) {
        return Err(Row::OutOfRange.at(line + 1));
    }
    Ok(())
}

// A route's lines from its head on; a route with no step is refused where the next head would stand.
fn check_route(places: Places, steps: &[u64], line: u64) -> Result<(), Refusal>
    requires { line < 900 }
    ensures { outcome_of result ≡ first (route_rows line places (steps_in steps.now)) }
{
    check_head(places, line)?;
    check_steps(places.count, steps, line + 2)?;
    if flat::count(steps) == 0 {
        return Err(Row::BadLength.at(line + 2));
    }
    Ok(())
}

// One route by itself: the rows that an old route meets, and the marking of the written places where none refuses.
pub fn check_alone(places: Places, steps: &[u64]) -> Result<Marking, Refusal>
    ensures outcome { outcome_of result ≡ first (alone_rows places (steps_in steps.now)) }
    ensures start { IfOk result (λ m. m.tokens ≡ places.start) }
{
    check_route(places, steps, 1)?;
    open(places, steps, 1)
}

// All lines, top down. What comes after asks that they pass by a clause: with a struct of the job and that fact each
// contract would have to say that its job is the one given.
pub fn check_lines(job: FlatJob) -> Result<(), Refusal>
    ensures { outcome_of result ≡ first (line_rows (job_in job.entry)) }
{
    check_route(job.old_places, job.old, 1)?;
    check_route(job.new_places, job.new, next_head(1, job.old))?;
    check_done(job.done, job_line(job) + 1)
}
