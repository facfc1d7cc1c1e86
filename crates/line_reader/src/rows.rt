// Rows 4, 2, 3 and 5 of a line. A number and its line are two, as in `opening`.
ghost use Rattle.std.specs.Prelude.{◌≡◌, true, List, ℕ, ◌≤◌, length};
ghost use Rattle.route.specs.Steps.{names};
ghost use Rattle.name_set.specs.inner.Hints.{Hinted};
ghost use Rattle.flat.specs.Flat.{steps_in};
ghost use Rattle.refusal.specs.Refusal.{outcome_of};
ghost use Rattle.version.specs.Limits.{Limits};
ghost use Rattle.version.specs.declared.Version.{Version};
ghost use Rattle.job.specs.Lines.{done_row};
ghost use Rattle.layout.specs.Text.{Form};
ghost use Rattle.facts.specs.Forms.{form_fits, form_row, start_row, record_of};
ghost use Rattle.tokens.specs.inner.Tokens.{no_entries, along};
ghost use Rattle.line_reader.specs.inner.Lines.{entries_fit, line_fits, line_lists, IsForm};
ghost use Rattle.line_reader.specs.inner.Rows.{head_row, new_row, job_row};

use crate::StepLine;
use job::lines::places_fit;
use refusal::{Refusal, Row};
use route::steps::low;
use route::{Route, Step};
use tokens::Entries;
use version::{Numbers, Version};

pub fn head_row(n: u64, line: u64) -> Result<(), Refusal>
    ensures { outcome_of result ≡ head_row line n }
{
    if !places_fit(n) {
        return Err(Row::OutOfRange.at(line));
    }
    Ok(())
}

// Each place below the count, and each above the one before.
pub fn start_row(count: u64, e: Entries, line: u64) -> Result<(), Refusal>
    ensures { (l : List ℕ) → e ≡ along no_entries l → outcome_of result ≡ start_row line count l }
{
    if count < e.top {
        return Err(Row::OutOfRange.at(line));
    }
    if e.falls {
        return Err(Row::BadList.at(line));
    }
    Ok(())
}

// Row 4 of the route above, and then the head's own.
pub fn new_row(above: usize, n: u64, line: u64) -> Result<(), Refusal>
    ensures { outcome_of result ≡ new_row line above n }
{
    if above == 0 {
        return Err(Row::BadLength.at(line));
    }
    head_row(n, line)
}

pub fn job_row(above: usize, line: u64) -> Result<(), Refusal>
    ensures { outcome_of result ≡ job_row line above }
{
    if above == 0 {
        return Err(Row::BadLength.at(line));
    }
    Ok(())
}

pub fn done_row(v: Numbers, above: usize, n: u64, line: u64) -> Result<(), Refusal>
    ensures { outcome_of result ≡ done_row v line above n }
{
    if Route::STEPS <= above {
        return Err(Row::BadLength.at(line));
    }
    if !v.name_fits(n) {
        return Err(Row::OutOfRange.at(line));
    }
    Ok(())
}

// Few enough entries, each above the one before.
fn entries_fit(e: Entries) -> bool
    ensures { result ≡ entries_fit e }
{
    e.count <= Route::ENTRIES as u64 && !e.falls
}

// A name in its range, each place below the count, each variable below 32.
#[tactic(auto, unfolding(crate::specs::inner::Lines::line_fits))]
fn line_fits(v: Version, count: u64, l: StepLine) -> bool
    ensures { result ≡ line_fits v count l }
{
    v.numbers.name_fits(l.name)
        && l.ins.top <= count
        && l.outs.top <= count
        && l.reads.top <= 32
        && l.writes.top <= 32
}

#[tactic(auto, unfolding(crate::specs::inner::Lines::line_lists))]
fn line_lists(l: StepLine) -> bool
    ensures { result ≡ line_lists l }
{
    l.ins.count != 0
        && l.outs.count != 0
        && entries_fit(l.ins)
        && entries_fit(l.outs)
        && entries_fit(l.reads)
        && entries_fit(l.writes)
}

// Given the steps above, and the hints of their names.
pub fn step_row(
    v: Version,
    hint: &[u8; 256],
    steps: &[u64],
    count: u64,
    l: StepLine,
    line: u64,
) -> Result<(), Refusal>
    requires { Hinted (names (steps_in steps.now)) hint.now }
    ensures { (f : Form) → IsForm l f
        → outcome_of result ≡ form_row v line count (length (steps_in steps.now))
        (names (steps_in steps.now)) f }
{
    if Route::STEPS <= flat::count(steps) {
        return Err(Row::BadLength.at(line));
    }
    if !line_fits(v, count, l) {
        return Err(Row::OutOfRange.at(line));
    }
    if !line_lists(l) {
        return Err(Row::BadList.at(line));
    }
    if name_set::has(hint, steps, low(l.name)) {
        return Err(Row::NameTwice.at(line));
    }
    Ok(())
}

pub fn step_of(l: StepLine) -> Step
    ensures { (v : Version) (f : Form) (n : ℕ) → Limits v → IsForm l f → n ≤ 64
        → form_fits v n f ≡ true → result ≡ record_of f }
{
    Step::of(
        l.name,
        l.cloth,
        l.ins.mask,
        l.outs.mask,
        l.reads.mask,
        l.writes.mask,
    )
}
