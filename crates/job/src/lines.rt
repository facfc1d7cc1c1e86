// The tests of one line, and rows 4 and 2 of the done lines.
ghost use Rattle.std.specs.Prelude.{◌≡◌, ◌≤◌};
ghost use Rattle.refusal.specs.Rows.{first};
ghost use Rattle.refusal.specs.Refusal.{outcome_of};
ghost use Rattle.version.specs.Limits.{present, name_fits};
ghost use Rattle.job.specs.Lines.{places_fit, start_fits, step_fits, place_list, variable_list, lists_fit, done_rows};

use mask::Mask;
use refusal::{Refusal, Row};
use route::{Places, Route, Step};
use version::Version;

fn name_fits(n: u32) -> bool
    ensures { result ≡ name_fits present n }
{
    Version::PRESENT.numbers.name_fits(n as u64)
}

#[tactic(auto, unfolding(crate::specs::Lines::step_fits))]
pub fn step_fits(count: u64, s: Step) -> bool
    requires { count ≤ 64 }
    ensures { result ≡ step_fits count s }
{
    name_fits(s.name) && (s.ins | s.outs).within(u64::below(count))
}

#[tactic(auto, unfolding(crate::specs::Lines::place_list))]
fn place_list(m: u64) -> bool
    ensures { result ≡ place_list m }
{
    m != 0 && m.count() <= Route::ENTRIES
}

#[tactic(auto, unfolding(crate::specs::Lines::variable_list))]
fn variable_list(vars: u32) -> bool
    ensures { result ≡ variable_list vars }
{
    vars.count() <= Route::ENTRIES
}

#[tactic(auto, unfolding(crate::specs::Lines::lists_fit))]
pub fn lists_fit(s: Step) -> bool
    ensures { result ≡ lists_fit s }
{
    place_list(s.ins) && place_list(s.outs) && variable_list(s.reads) && variable_list(s.writes)
}

#[tactic(auto, unfolding(crate::specs::Lines::places_fit))]
pub fn places_fit(n: u64) -> bool
    ensures { result ≡ places_fit n }
{
    (1..=Route::PLACES).contains(&n)
}

#[tactic(auto, unfolding(crate::specs::Lines::start_fits))]
pub fn start_fits(places: Places) -> bool
    requires { places.count ≤ 64 }
    ensures { result ≡ start_fits places }
{
    places.start.within(u64::below(places.count))
}

// The done lines; the first is on `line`.
pub fn check_done(done: &[u32], line: u64) -> Result<(), Refusal>
    requires { line ≤ 1000 }
    ensures { outcome_of result ≡ first (done_rows present line 0 done.now) }
{
    for (i, &name) in done.iter().enumerate() {
        if i >= Route::STEPS {
            return Err(Row::BadLength.at(line + 64));
        }
        if !name_fits(name) {
            return Err(Row::OutOfRange.at(line + i as u64));
        }
    }
    Ok(())
}
