// Which occurrences the new route has with the same reads, writes and mark.
ghost use Rattle.std.specs.Prelude.{◌≡◌, List};
ghost use Rattle.route.specs.declared.Step.{Step};
ghost use Rattle.matching.specs.Straight.{same_data};
ghost use Rattle.matching.specs.inner.Matches.{MatchesOf, present, same_mask};
ghost use Rattle.matching.specs.inner.Pairs.{done_in};

use crate::Pairs;
use mask::Mask;
use route::Step;

// The match `t` is there, reads and writes what `s` does, and has its mark.
#[tactic(auto, unfolding(crate::specs::Straight::same_data, crate::specs::Straight::same_mark, crate::specs::inner::Matches::present))]
fn same_data(s: Step, t: Step) -> bool
    ensures { result ≡ same_data s (present t) }
{
    t.name != 0 && t.reads == s.reads && t.writes == s.writes && t.cloth == s.cloth
}

// By one pass over both lists.
pub fn same_mask(pairs: Pairs) -> u64
    ensures { (new : List Step) → MatchesOf new (done_in pairs.entry) pairs.entry.matches.now
        → result ≡ same_mask new (done_in pairs.entry) }
{
    let mut same = 0;
    let steps = flat::steps(pairs.occurrences).zip(flat::steps(pairs.matches));
    for (i, (s, t)) in steps.enumerate() {
        if same_data(s, t) {
            same |= u64::bit(i);
        }
    }
    same
}
