// The empty shelf, the limits, and what the numbers on a shelf say.
ghost use Rattle.std.specs.Prelude.{◌≡◌, ◌&&◌, leb, length, take};
ghost use Rattle.shelf.specs.Shelf.{no_shelf, number_fits, rise, last_of, numbers_in};
ghost use Rattle.lookup.specs.Position.{position};

use crate::{Edition, Shelf};
use route::Route;

impl Shelf {
    pub const EDITIONS: usize = 8;

    // The greatest number of an edition.
    pub const GREATEST: u32 = 65535;

    pub fn empty() -> Shelf
        ensures { result ≡ no_shelf }
    {
        let blank = Edition {
            number: 0,
            route: Route::empty(),
        };
        Shelf {
            len: 0,
            editions: [blank; 8],
        }
    }
}

// The numbers of all eight entries.
pub(crate) fn numbers_in(s: &Shelf) -> [u32; 8]
    ensures { (result ≡ numbers_in s.now.editions) × (length s.now.editions ≡ 8) }
{
    s.editions.each_ref().map(|e| e.number)
}

// A number may follow the last one.
pub(crate) fn number_fits(last: u32, number: u32) -> bool
    ensures { result ≡ number_fits last number }
{
    last < number && number <= Shelf::GREATEST
}

// Each number may follow the one before it, and the first may follow 0.
fn numbers_rise(numbers: &[u32]) -> bool
    ensures { result ≡ rise 0 numbers.now }
{
    let mut last = 0;
    for &n in numbers {
        if !number_fits(last, n) {
            return false;
        }
        last = n;
    }
    true
}

// The length is at most that of the list, and so many of its numbers rise.
pub(crate) fn is_good(len: usize, numbers: &[u32]) -> bool
    ensures { result ≡ (leb len (length numbers.now) && rise 0 (take len numbers.now)) }
{
    len <= numbers.len() && numbers_rise(&numbers[..len])
}

// The last number, 0 where there is none.
pub(crate) fn last_of(numbers: &[u32]) -> u32
    ensures { result ≡ last_of 0 numbers.now }
{
    numbers.last().copied().unwrap_or(0)
}

// Where a number stands.
#[tactic(auto, unfolding(lookup::specs::Position::position))]
pub(crate) fn position_of(numbers: &[u32], number: u32) -> Option<usize>
    ensures { result ≡ position number numbers.now }
{
    numbers.iter().position(|n| *n == number)
}
