// Prints judge's and try's answers on records: 01's examples A to L, the limit of 16 kept, loops, the search at its
// worst, work slices and orders of every kind.
#![tactic(auto)]

use job::laying::RouteJob;
use std::io;

mod letters;
mod searches;

// A work slice of 8,192 bytes is enough; what it holds doesn't matter.
fn say(rt: &impl Print, label: &[u8], job: RouteJob) -> io::Result<()> {
    let mut work = [7u8; 8192];
    show_judged::say(rt, label, judging::judging::judge(&job, &mut work))
}

fn main(rt: HostRuntime) -> io::Result<()> {
    letters::show(&rt)?;
    searches::show(&rt)?;
    searches::show_work(&rt)?;
    show_orders::show(&rt)?;
    show_orders::show_letters(&rt)
}
