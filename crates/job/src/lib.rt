// A job as records: both routes and the done names, and the rows on its lines.

#![tactic(auto)]

pub mod checks;
pub mod laying;
pub mod lines;

use route::Places;

// A job that is lent: both routes' places, their steps as numbers, and the done names. `lent::LentJob` is the
// same with records: two types, since clauses read them by two definitions, and that crate knows what records are laid
// as.
#[derive(Clone, Copy)]
pub struct FlatJob<'a> {
    pub old_places: Places,
    pub old: &'a [u64],
    pub new_places: Places,
    pub new: &'a [u64],
    pub done: &'a [u32],
}
