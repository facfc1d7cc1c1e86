// Rows 16, 17 and 18: the entries of an order. An order and what is kept are two values, by the names that 01 gives
// them; that the kept are among the matches is a clause, as in `matching::rows`.
#![tactic(auto)]

ghost use Rattle.std.specs.Prelude.{◌≡◌, true, not, ◌&&◌, List, map, ℕ, ◌-◌, ◌≤◌, ◌<◌, length};
ghost use Rattle.mask.specs.Mask.{has};
ghost use Rattle.refusal.specs.Refusal.{outcome_of};
ghost use Rattle.flat.specs.Flat.{steps_in};
ghost use Rattle.route.specs.declared.Step.{Step};
ghost use Rattle.precedence.specs.Table.{table};
ghost use Rattle.order_entries.specs.Entries.{is_kept, list_row, try_from, try_entries};
ghost use Rattle.route.specs.Firing.{fired_of};
ghost use Rattle.order_entries.specs.inner.Replayable.{Replayable};

use mask::Mask;
use precedence::table_of;
use refusal::{Refusal, Row};
use route::Marking;

// Occurrence number b is kept, and is not seen yet.
fn fresh(kept: u64, seen: u64, b: usize) -> bool
    ensures { result ≡ (is_kept kept b && not (has seen (b - 1))) }
{
    (1..=64).contains(&b) && kept.without(seen).holds(b - 1)
}

// Row 16 over the whole list.
fn check_list(order: &[u8], kept: u64) -> Result<(), Refusal>
    ensures { outcome_of result ≡ list_row kept 0 1 order.now }
{
    let mut seen = 0;
    for (i, &b) in order.iter().enumerate() {
        let b = b as usize;
        if !fresh(kept, seen, b) {
            return Err(Row::BadOrder.at(i as u64 + 1));
        }
        seen |= u64::bit(b - 1);
    }
    if seen != kept {
        return Err(Row::BadOrder.at(order.len() as u64 + 1));
    }
    Ok(())
}

// Rows 17 and 18 for each entry, by the precedence table. The entries still to come are the kept ones that are not
// placed.
fn fire_list(
    order: &[u8],
    kept: u64,
    rows: [u64; 64],
    matches: &[u64],
    from: Marking,
) -> Result<Marking, Refusal>
    requires order_value { (list_row kept 0 1 order.now).number ≡ 0 }
    requires by_index { (i : ℕ) → has kept i ≡ true → i < length (steps_in matches.now) }
    ensures { (new l : List Step) → Replayable new l kept (steps_in matches.now) → rows ≡ table l
        → fired_of result ≡ try_from new l from.tokens 1 (map (λ (b : ℕ). b - 1) order.now) }
{
    let mut placed = 0;
    let mut m = from;
    for (i, &b) in order.iter().enumerate() {
        let at = i as u64 + 1;
        let k = b as usize - 1;
        if !(rows[k] & kept).within(placed) {
            return Err(Row::TooEarly.at(at));
        }
        let s = flat::step_at(matches, k);
        if !m.enables(s) {
            return Err(Row::StepCannotFire.at(at));
        }
        m = m.next(s);
        placed |= u64::bit(k);
    }
    Ok(m)
}

// Row 16, and then 17 and 18.
pub fn by_rows(
    order: &[u8],
    kept: u64,
    occurrences: &[u64],
    matches: &[u64],
    from: Marking,
) -> Result<Marking, Refusal>
    requires occurrences_len_bound { length (steps_in occurrences.now) ≤ 64 }
    requires by_index { (i : ℕ) → has kept i ≡ true → i < length (steps_in matches.now) }
    ensures { (new : List Step)
        → Replayable new (steps_in occurrences.now) kept (steps_in matches.now)
        → fired_of result ≡ try_entries new (steps_in occurrences.now) from.tokens order.now }
{
    check_list(order, kept)?;
    let rows = table_of(occurrences);
    fire_list(order, kept, rows, matches, from)
}
