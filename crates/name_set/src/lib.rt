// The names of a list of steps as a set: row 5's test whether a name is new. It is no look-up, and tells no place; a
// hint for the name's last digit in base 256 spares most scans.
#![tactic(auto)]

ghost use Rattle.std.specs.Prelude.{◌≡◌, List, [], ◌∷◌, ◌++◌, ℕ, ◌<◌, length};
ghost use Rattle.route.specs.Steps.{names};
ghost use Rattle.name_set.specs.Among.{among};
ghost use Rattle.name_set.specs.inner.Hints.{Hinted};
ghost use Rattle.flat.specs.Flat.{steps_in};

// One more name, at `place`: the first of its last digit stays. A hint is a byte, the place and 1, or 0 for none:
// Options would take two bytes each.
pub fn add(hint: &mut [u8; 256], name: u32, place: usize)
    requires { place < 64 }
    ensures { (l : List ℕ) → length l ≡ place → Hinted l hint.old
        → Hinted (l ++ (name ∷ [])) hint.new }
{
    let digit = (name % 256) as usize;
    if hint[digit] == 0 {
        hint[digit] = place as u8 + 1;
    }
}

// A digit without a hint ends no name, and where the hint is right nothing is scanned.
pub fn has(hint: &[u8; 256], steps: &[u64], name: u32) -> bool
    requires { Hinted (names (steps_in steps.now)) hint.now }
    ensures { result ≡ among name (names (steps_in steps.now)) }
{
    let k = hint[(name % 256) as usize] as usize;
    k != 0 && (flat::name_at(steps, k - 1) == name || lookup::first(steps, name).is_some())
}
