// Which occurrences are kept: one sweep from the last to the first.
ghost use Rattle.std.specs.Prelude.{◌≡◌, ◌≤◌, length};
ghost use Rattle.flat.specs.Flat.{steps_in};
ghost use Rattle.slice.specs.Slice.{Sweep, keeps, kept_mask};

use mask::Mask;
use route::Step;

// Whether `s` is kept: `live` are the variables that are still wanted after it, `tokens` the places whose tokens are.
#[tactic(auto, unfolding(crate::specs::Slice::keeps))]
fn stays(s: Step, live: u32, tokens: u64) -> bool
    ensures { (w : Sweep) → w.live ≡ live → w.tokens ≡ tokens → result ≡ keeps s w }
{
    s.cloth || s.writes.meets(live) || s.outs.meets(tokens)
}

pub fn keep(occurrences: &[u64], vars: u32) -> u64
    requires { length (steps_in occurrences.now) ≤ 64 }
    ensures { result ≡ kept_mask (steps_in occurrences.now) vars }
{
    let mut live = vars;
    let mut tokens = 0u64;
    let mut kept = 0u64;
    // By index: `flat::steps` comes from the first step on alone.
    for i in (0..flat::count(occurrences)).rev() {
        let s = flat::step_at(occurrences, i);
        if stays(s, live, tokens) {
            live = live.without(s.writes) | s.reads;
            tokens = tokens.without(s.outs) | s.ins;
            kept |= u64::bit(i);
        }
    }
    kept
}
