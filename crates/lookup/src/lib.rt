// Look-up by name in a list of steps.
#![tactic(auto)]

ghost use Rattle.std.specs.Prelude.{◌≡◌};
ghost use Rattle.route.specs.Steps.{names};
ghost use Rattle.lookup.specs.Position.{position};
ghost use Rattle.lookup.specs.Around.{looked};
ghost use Rattle.flat.specs.Flat.{steps_in};

// A look-up: where the name stands, how many names were compared, and where the next look-up begins.
#[derive(Clone, Copy)]
pub struct Looked {
    pub found: Option<usize>,
    pub compared: usize,
    pub next: usize,
}

// From the top.
#[tactic(auto, using(crate::proofs::Around::steps_fit))]
pub fn first(steps: &[u64], name: u32) -> Option<usize>
    ensures { result ≡ position name (names (steps_in steps.now)) }
{
    flat::steps(steps).position(|s| s.name == name)
}

// From `from` to the last, then from the top; a beginning past the last is the top.
#[tactic(auto, using(crate::proofs::Around::steps_fit))]
pub fn find(steps: &[u64], from: usize, name: u32) -> Looked
    ensures { result ≡ looked from name (names (steps_in steps.now)) }
{
    let n = flat::count(steps);
    let begin = from.min(n);
    let split = 4 * begin;
    if let Some(k) = first(&steps[split..], name) {
        let place = begin + k;
        let end = place + 1;
        return Looked {
            found: Some(place),
            compared: end - begin,
            next: end,
        };
    }
    if let Some(k) = first(&steps[..split], name) {
        let after = k + 1;
        let round = n - begin + after;
        return Looked {
            found: Some(k),
            compared: round,
            next: after,
        };
    }
    Looked {
        found: None,
        compared: n,
        next: from,
    }
}
