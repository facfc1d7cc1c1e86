// The shelf: up to eight editions of a route with rising numbers, and jobs judged between two of them.
#![tactic(auto)]

use route::Route;

pub mod between;
mod editions;
pub mod storing;

#[derive(Clone, Copy)]
pub struct Edition {
    pub number: u32,
    pub route: Route,
}

// The first `len` of the editions are stored: eight and a length, by the rule of fixed memory and no heap.
#[derive(Clone, Copy)]
pub struct Shelf {
    pub len: usize,
    pub editions: [Edition; 8],
}
