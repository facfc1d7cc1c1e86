// Lent lists of steps: four numbers for each step, so that a list is lent as numbers and a step is copied out or put
// in.
#![tactic(auto)]

ghost use Rattle.std.specs.Prelude.{◌≡◌, ◌+◌, ◌*◌, ◌<◌, length, get_or, set};
ghost use Rattle.route.specs.Steps.{blank};
ghost use Rattle.flat.specs.Flat.{first_number, step_from, steps_in, steps_left};
ghost use Rattle.std.specs.Iterator.{YieldsFirst, item_count};

use route::Step;
use route::steps::low;

pub mod laying;

// How many steps there are.
pub fn count(steps: &[u64]) -> usize
    ensures { result ≡ length (steps_in steps.now) }
{
    steps.len() / 4
}

// The step of four numbers.
fn step_from(first: u64, ins: u64, outs: u64, uses: u64) -> Step
    ensures { result ≡ step_from first ins outs uses }
{
    Step::of(first, 1 << 32 <= first, ins, outs, uses, uses >> 32)
}

#[tactic(auto, using(crate::proofs::FlatSteps::flat_lengths))]
pub fn step_at(steps: &[u64], i: usize) -> Step
    requires { i < length (steps_in steps.now) }
    ensures { result ≡ get_or (steps_in steps.now) i blank }
{
    let at = 4 * i;
    step_from(steps[at], steps[at + 1], steps[at + 2], steps[at + 3])
}

// The steps in turn: the numbers of those that are left.
#[derive(Drop)]
pub struct Iter<'a>(&'a [u64]);

pub fn steps(list: &[u64]) -> Iter<'_>
    ensures { steps_left result ≡ steps_in list.now }
{
    Iter(list)
}

impl<'a> Iterator for Iter<'a> {
    type Item = Step;

    ghost next_gives = { YieldsFirst steps_left };

    ghost remaining = { item_count steps_left };

    #[tactic(auto, using(crate::proofs::FlatSteps::flat_lengths))]
    fn next(&mut self) -> Option<Step> {
        let [first, ins, outs, uses, rest @ ..] = self.0 else {
            return None;
        };
        self.0 = rest;
        Some(step_from(*first, *ins, *outs, *uses))
    }
}

#[tactic(auto, using(crate::proofs::FlatSteps::flat_lengths))]
pub fn name_at(steps: &[u64], i: usize) -> u32
    requires { i < length (steps_in steps.now) }
    ensures { result ≡ (get_or (steps_in steps.now) i blank).name }
{
    low(steps[4 * i])
}

// Two halves as one number.
fn joined(low: u32, high: u32) -> u64
    ensures { result ≡ low + high * 4294967296 }
{
    u64::from(low) + (u64::from(high) << 32)
}

// A step's first number: its name, and the mark above it.
fn first_number(name: u32, cloth: bool) -> u64
    ensures { result ≡ first_number name cloth }
{
    joined(name, u32::from(cloth))
}

#[tactic(auto, using(crate::proofs::FlatSteps::flat_lengths))]
pub fn put(steps: &mut [u64], i: usize, s: Step)
    requires { i < length (steps_in steps.old) }
    ensures steps_after { steps_in steps.new ≡ set (steps_in steps.old) i s }
    ensures steps_len_unchanged { length steps.new ≡ length steps.old }
{
    let at = 4 * i;
    steps[at] = first_number(s.name, s.cloth);
    steps[at + 1] = s.ins;
    steps[at + 2] = s.outs;
    steps[at + 3] = joined(s.reads, s.writes);
}
