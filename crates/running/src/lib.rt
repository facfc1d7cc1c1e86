// The run of a job on its old route: rows 6 to 9 with 23, and the steps done.
use route::Marking;

pub mod lists;
pub mod routes;

// A job that no row to 9 refuses: the old route's marking, the new route's start, and how many of the old route's names
// were compared.
#[derive(Clone, Copy)]
pub struct Begun {
    pub marking: Marking,
    pub start: Marking,
    pub compared: usize,
}
