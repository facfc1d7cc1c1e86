// Prints run's answers on records: the route parts of 01's examples and of a job that has gone round, the limits, and a
// wrong record for each row; then fire's. Each line is a label, the number, the second number and the marking.
#![tactic(auto)]

use show_ran::faults;
use std::io;

mod fires;
mod letters;
mod limits;

fn main(rt: HostRuntime) -> io::Result<()> {
    letters::show(&rt)?;
    limits::show(&rt)?;
    faults::show_routes(&rt)?;
    faults::show_steps(&rt)?;
    faults::show_starts(&rt)?;
    faults::show_reads(&rt)?;
    fires::show(&rt)
}
