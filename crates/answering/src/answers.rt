// What the listing shows of a list of occurrences.
ghost use Rattle.std.specs.Prelude.{◌≡◌, cond, List, map, ℕ, suc, ◌≤◌, ◌<◌, length, get_or};
ghost use Rattle.mask.specs.Mask.{has, count};
ghost use Rattle.route.specs.declared.Step.{Step};
ghost use Rattle.flat.specs.Flat.{steps_in};
ghost use Rattle.slice.specs.Slice.{variables};
ghost use Rattle.precedence.specs.Order.{in_turn};
ghost use Rattle.precedence.specs.Table.{table};
ghost use Rattle.answering.specs.Answer.{padded, after_of, writer_of};
ghost use Rattle.answering.specs.inner.Listed.{AnswersList};

use crate::{Moved, Placed};
use mask::Mask;

// The rows of the kept, with the kept alone.
fn after_rows(rows: &[u64; 64], kept: u64) -> [u64; 64]
    ensures { (l : List Step) → rows.now ≡ table l → result ≡ map (after_of l kept) (in_turn 0 64) }
{
    let mut after = [0u64; 64];
    for i in kept.members() {
        after[i] = rows[i] & kept;
    }
    after
}

// The number for each variable of the mask.
fn mark_writers(writers: &mut [u8; 32], hit: u32, number: u8)
    requires { length writers.old ≡ 32 }
    ensures writers_len { length writers.new ≡ 32 }
    ensures by_index { (v : ℕ) → v < 32
        → get_or writers.new v 0 ≡ cond (has hit v) number (get_or writers.old v 0) }
{
    for v in hit.members() {
        writers[v] = number;
    }
}

// The last writer of each of the variables: from the last occurrence to the first, over the variables that no later one
// writes.
fn last_writers(occurrences: &[u64], vars: u32) -> [u8; 32]
    requires { length (steps_in occurrences.now) ≤ 64 }
    ensures { (new : List Step) → vars ≡ variables new
        → result ≡ map (writer_of new (steps_in occurrences.now)) (in_turn 0 32) }
{
    let mut writers = [0; 32];
    let mut left = vars;
    // By index: `flat::steps` comes from the first step on alone.
    for i in (0..flat::count(occurrences)).rev() {
        if left == 0 {
            return writers;
        }
        let hit = flat::step_at(occurrences, i).writes & left;
        left = left.without(hit);
        mark_writers(&mut writers, hit, i as u8 + 1);
    }
    writers
}

// The numbers of all occurrences in turn.
pub fn straight_order(len: usize) -> [u8; 64]
    requires { len ≤ 64 }
    ensures { result ≡ padded 64 (map suc (in_turn 0 len)) }
{
    let mut order = [0; 64];
    for (i, number) in order[..len].iter_mut().enumerate() {
        *number = i as u8 + 1;
    }
    order
}

// All that is shown of a list of occurrences.
pub fn answered(occurrences: &[u64], rows: &[u64; 64], vars: u32, kept: u64, list: Placed) -> Moved
    requires occurrences_len_bound { (length (steps_in occurrences.now) ≤ 64) × (list.len ≤ 64) }
    requires kept_in_bounds { count 64 kept ≤ length (steps_in occurrences.now) }
    ensures { AnswersList rows.now vars kept list (steps_in occurrences.now) result }
{
    let order = list.order;
    let marking = list.marking;
    let len = list.len as u32;
    let after = after_rows(rows, kept);
    let writers = last_writers(occurrences, vars);
    let done = flat::count(occurrences) as u32;
    let dropped = done - kept.count();
    Moved {
        kept,
        dropped,
        len,
        order,
        marking,
        after,
        writers,
    }
}
