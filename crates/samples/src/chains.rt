// Long routes.
ghost use Rattle.std.specs.Prelude.{◌≤◌};

use crate::step;
use mask::Mask;
use route::{Places, Route, Step};

// Whether each step of a row lies one place further on than the one before, or one place back.
#[derive(Clone, Copy)]
enum Way {
    On,
    Back,
}

impl Way {
    fn moved(self, m: u64) -> u64 {
        match self {
            Way::On => m << 1,
            Way::Back => m >> 1,
        }
    }

    // The next name, the next place, and the next variable.
    fn next(self, s: Step) -> Step {
        step(
            std::num::wrapping_add_u32(s.name, 1),
            self.moved(s.ins),
            self.moved(s.outs),
            0,
            s.writes << 1,
        )
    }
}

// n steps, each the next of the one before; the route starts on place 0.
fn row(n: usize, first: Step, way: Way) -> Route
    requires { n ≤ 64 }
{
    let mut r = Route::empty();
    r.places = Places {
        count: n as u64 + 1,
        start: 1,
    };
    r.len = n;
    let mut next = first;
    for s in &mut r.steps[..n] {
        *s = next;
        next = way.next(next);
    }
    r
}

// Step i, named 100 + i, goes from place i to place i + 1: 64 places, 63 steps.
pub fn chain() -> Route {
    row(63, step(100, 1, 2, 0, 0), Way::On)
}

// The chain, and one step more that loops on its last place.
pub fn full() -> Route {
    let mut r = chain();
    r.len = 64;
    r.steps[63] = step(163, u64::bit(63), u64::bit(63), 0, 1);
    r
}

// n steps in a row; step i, named 100 + i, writes variable i.
pub fn line(n: usize) -> Route
    requires { n ≤ 32 }
{
    row(n, step(100, 1, 2, 0, 1), Way::On)
}

// The names of `line(17)`.
pub fn names() -> [u32; 17] {
    [
        100, 101, 102, 103, 104, 105, 106, 107, 108, 109, 110, 111, 112, 113, 114, 115, 116,
    ]
}

// The same steps in a row, the last one first.
pub fn turned(n: usize) -> Route
    requires { n ≤ 32 }
{
    let last = u64::bit(n);
    row(n, step(100, last >> 1, last, 0, 1), Way::Back)
}

// The steps of `line(16)` side by side, but the last waits for a step that isn't done: no order of the 16 fires, and
// every set of the other 15 can be reached.
pub fn stuck() -> Route {
    let mut r = row(16, step(100, 1, 1 << 16, 0, 1), Way::On);
    r.places = Places {
        count: 34,
        start: (1 << 33) | 65535,
    };
    r.len = 17;
    r.steps[15].ins = 1 << 32;
    r.steps[16] = step(99, (1 << 33) | (1 << 15), 1 << 32, 0, 0);
    r
}
