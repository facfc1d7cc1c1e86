// The variables of a route.
ghost use Rattle.std.specs.Prelude.{◌≡◌};
ghost use Rattle.flat.specs.Flat.{steps_in};
ghost use Rattle.slice.specs.Slice.{variables};

// All that the steps read or write.
pub fn variables_of(steps: &[u64]) -> u32
    ensures { result ≡ variables (steps_in steps.now) }
{
    flat::steps(steps).fold(0, |vars, s| vars | (s.reads | s.writes))
}
