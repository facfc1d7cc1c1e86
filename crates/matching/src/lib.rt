// How the new route matches a job's occurrences: straight replay, and rows 10 to 12.
#![tactic(auto)]

ghost use Rattle.std.specs.Prelude.{◌≡◌, ◌≤◌, length};
ghost use Rattle.flat.specs.Flat.{steps_in};

pub mod rows;
pub mod same;
pub mod straight;

// The occurrences, and the new route's steps for them.
#[derive(Clone, Copy)]
pub struct Pairs<'a> {
    pub occurrences: &'a [u64],
    pub matches: &'a [u64],
    pub ghost few: { length (steps_in occurrences.now) ≤ 64 },
    pub ghost alike: { length (steps_in matches.now) ≡ length (steps_in occurrences.now) },
}
