// A route as a whole: the places that its steps take from and put to, the variables that they write, rows 6, 7 and 23,
// and the marking that it starts from.
#![tactic(auto)]

ghost use Rattle.std.specs.Prelude.{◌≡◌, ◌≤◌, List, length, IfOk};
ghost use Rattle.flat.specs.Flat.{steps_in};
ghost use Rattle.refusal.specs.Refusal.{outcome_of};
ghost use Rattle.refusal.specs.Rows.{first, each_line};
ghost use Rattle.route.specs.Firing.{implied_places};
ghost use Rattle.route.specs.declared.Step.{Step};
ghost use Rattle.opening.specs.Net.{net_row_at, open_row};
ghost use Rattle.opening.specs.Unwritten.{reads_among};
ghost use Rattle.opening.specs.Gathered.{GatheredFrom};

use mask::Mask;
use refusal::{Refusal, Row};
use route::{Marking, Places};

// The places that some step takes from, those that some step puts to, and the variables that some step writes.
#[derive(Clone, Copy)]
pub struct Gathered {
    pub ins: u64,
    pub outs: u64,
    pub writes: u32,
}

// All of them, by one pass.
fn gather(steps: &[u64]) -> Gathered
    ensures { GatheredFrom (steps_in steps.now) result }
{
    let mut ins = 0u64;
    let mut outs = 0u64;
    let mut writes = 0u32;
    for s in flat::steps(steps) {
        ins |= s.ins;
        outs |= s.outs;
        writes |= s.writes;
    }
    Gathered { ins, outs, writes }
}

// A route's places where the start is only implied: each place that is an out-place of no step has a token.
#[tactic(auto, using(crate::proofs::NetRows::implied_are))]
pub fn implied(count: u64, steps: &[u64]) -> Places
    requires { count ≤ 64 }
    ensures { result ≡ implied_places count (steps_in steps.now) }
{
    let g = gather(steps);
    Places {
        count,
        start: u64::below(count).without(g.outs),
    }
}

// The marking of the start places, unless row 6 refuses at the line of the route's head or row 7 at the line that
// tells of its start, by what a pass over the steps found.
fn check_net(places: Places, g: Gathered, head: u64, start: u64) -> Result<Marking, Refusal>
    requires { places.count ≤ 64 }
    ensures outcome { (l : List Step) → GatheredFrom l g → outcome_of result ≡ net_row_at head start places l }
    ensures start { IfOk result (λ m. m.tokens ≡ places.start) }
{
    let all = u64::below(places.count);
    if !all.within(g.ins | g.outs) {
        return Err(Row::UnusedPlace.at(head));
    }
    if places.start == 0 {
        return Err(Row::NoStart.at(start));
    }
    Ok(Marking {
        tokens: places.start,
    })
}

// Rows 6 and 7 alone, at any two lines. Places, steps and lines are plain parameters, here and in `job`: a type for
// their bounds would be made and taken apart in every function.
pub fn open_at(places: Places, steps: &[u64], head: u64, start: u64) -> Result<Marking, Refusal>
    requires { places.count ≤ 64 }
    ensures outcome { outcome_of result ≡ net_row_at head start places (steps_in steps.now) }
    ensures start { IfOk result (λ m. m.tokens ≡ places.start) }
{
    check_net(places, gather(steps), head, start)
}

// Row 23 over step lines, top down: a step that reads what isn't among the variables given. The first is on `line`.
fn check_reads(steps: &[u64], written: u32, line: u64) -> Result<(), Refusal>
    requires { (line ≤ 1002) × (length (steps_in steps.now) ≤ 64) }
    ensures { outcome_of result ≡ first (each_line (reads_among written) 23 line (steps_in steps.now)) }
{
    for (i, s) in flat::steps(steps).enumerate() {
        if !s.reads.within(written) {
            return Err(Row::UnwrittenRead.at(line + i as u64));
        }
    }
    Ok(())
}

// Rows 6, 7 and 23 of a route whose head is on `line`; a start line follows it.
pub fn open(places: Places, steps: &[u64], line: u64) -> Result<Marking, Refusal>
    requires { (places.count ≤ 64) × ((line ≤ 1000) × (length (steps_in steps.now) ≤ 64)) }
    ensures outcome { outcome_of result ≡ open_row line places (steps_in steps.now) }
    ensures start { IfOk result (λ m. m.tokens ≡ places.start) }
{
    let g = gather(steps);
    let from = check_net(places, g, line, line + 1)?;
    check_reads(steps, g.writes, line + 2)?;
    Ok(from)
}
