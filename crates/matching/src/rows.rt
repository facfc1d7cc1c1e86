// Rows 10, 11 and 12: what stops a job whose done list has run.
ghost use Rattle.std.specs.Prelude.{◌≡◌, List, true, ◌||◌, ℕ, ◌≤◌, ◌<◌, leb, length, is_some};
ghost use Rattle.mask.specs.Mask.{has, members, count};
ghost use Rattle.refusal.specs.Refusal.{outcome_of};
ghost use Rattle.refusal.specs.Rows.{first};
ghost use Rattle.route.specs.declared.Step.{Step};
ghost use Rattle.flat.specs.Flat.{steps_in};
ghost use Rattle.matching.specs.Fit.{kept_of};
ghost use Rattle.matching.specs.KeptRows.{kept_lines, kept_rows};
ghost use Rattle.matching.specs.inner.Matched.{straight_end};
ghost use Rattle.matching.specs.inner.Matches.{MatchesOf, same_mask};

use mask::Mask;
use refusal::{Refusal, Row};
use route::{Marking, Route};

// At most 16 are kept, or the job is straight.
fn limited(straight: Option<Marking>, kept: u64) -> bool
    ensures { result ≡ (is_some straight || leb (count 64 kept) 16) }
{
    straight.is_some() || kept.count() as usize <= Route::KEPT
}

// Rows 11 and 12 at the first of the kept that isn't the same in the new route; `line` is that of the first done line.
// That the kept are among the matches is a clause, here and above: a struct of a mask and a list would be made at each
// call.
fn kept_lines(kept: u64, same: u64, matches: &[u64], line: u64) -> Result<(), Refusal>
    requires line_bound { line ≤ 1000 }
    requires by_index { (i : ℕ) → has kept i ≡ true → (i < 64) × (i < length (steps_in matches.now)) }
    ensures { (new l : List Step) → MatchesOf new l matches.now → same ≡ same_mask new l
        → outcome_of result ≡ first (kept_lines new l line (members 64 kept)) }
{
    let wrong = kept.without(same);
    if wrong == 0 {
        return Ok(());
    }
    let i = wrong.lowest();
    if flat::name_at(matches, i) == 0 {
        return Err(Row::NotInNewRoute.at(line + i as u64));
    }
    Err(Row::UsesDiffer.at(line + i as u64))
}

// Row 10 at the job line, then 11 and 12.
pub fn kept_rows(
    kept: u64,
    same: u64,
    matches: &[u64],
    straight: Option<Marking>,
    line: u64,
) -> Result<(), Refusal>
    requires line_bound { line ≤ 900 }
    requires by_index { (i : ℕ) → has kept i ≡ true → (i < 64) × (i < length (steps_in matches.now)) }
    ensures { (from : ℕ) (new l : List Step) → MatchesOf new l matches.now → kept ≡ kept_of new l
        → same ≡ same_mask new l → straight ≡ straight_end from new l → outcome_of result ≡ kept_rows line from new l }
{
    if !limited(straight, kept) {
        return Err(Row::TooManyKept.at(line));
    }
    kept_lines(kept, same, matches, line + 1)
}
