// The steps done as occurrences: what each took from shared places and put there.
#![tactic(auto)]

ghost use Rattle.std.specs.Prelude.{◌≡◌, List, ◌≤◌, length, map};
ghost use Rattle.route.specs.declared.Step.{Step};
ghost use Rattle.flat.specs.Flat.{steps_in, Holds};
ghost use Rattle.occurrences.specs.Occurrences.{shared, occurrence};

use mask::Mask;
use route::Step;

// The places that two or more of the steps take from.
pub fn shared(steps: &[u64]) -> u64
    ensures { result ≡ shared (steps_in steps.now) }
{
    let mut once = 0;
    let mut twice = 0;
    for s in flat::steps(steps) {
        twice |= once & s.ins;
        once |= s.ins;
    }
    twice
}

// The step done, with its takes from the places and its puts there.
#[tactic(auto, unfolding(crate::specs::Occurrences::occurrence))]
fn occurrence(places: u64, s: Step) -> Step
    ensures { result ≡ occurrence places s }
{
    let mut o = s;
    o.ins = s.ins & places;
    o.outs = s.outs.without(s.ins) & places;
    o
}

// The first `n` of the lent steps become occurrences, by the old route's shared places.
pub fn narrow(old: &[u64], n: usize, steps: &mut [u64])
    requires in_bounds { (n ≤ 64) × (256 ≤ length steps.old) }
    ensures holds { (l : List Step) → length l ≡ n → Holds l steps.old
        → Holds (map (occurrence (shared (steps_in old.now))) l) steps.new }
    ensures len_unchanged { length steps.new ≡ length steps.old }
{
    let places = shared(old);
    for i in 0..n {
        let s = flat::step_at(steps, i);
        flat::put(steps, i, occurrence(places, s));
    }
}
