// One part of a sheet at a time, and where reading stands between two.
#![tactic(auto)]

use refusal::Refusal;
use route::Places;

pub mod parts;

// Where reading stands between two lines: the place, how many lines there were, and the first row that refuses one, if
// any does.
#[derive(Clone, Copy)]
pub struct Pass {
    pub at: usize,
    pub lines: u64,
    pub rows: Result<(), Refusal>,
}

// Past a route's head, or past its start line too: where reading stands, and what is known of the route's places.
#[derive(Clone, Copy)]
pub struct Head {
    pub pass: Pass,
    pub places: Places,
}

// Past the steps or the done names: where reading stands, and how many were put away.
#[derive(Clone, Copy)]
pub struct Filled {
    pub pass: Pass,
    pub len: usize,
}
