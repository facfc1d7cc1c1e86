// The operations over a job, whichever way its routes are lent, and over records by value.
#![tactic(auto)]

use answering::Judged;
use drive_load::arguments::Argument;
use drive_load::stop::Stop;
use drive_load::{Routes, Script};
use drive_out::Answer;
use drive_script::operations::OverJob;
use job::laying::{Lay, RouteJob};
use judging::judging::judge;
use out_slice::Wrote;
use route::{Marking, Step};
use running::routes::run;
use slicing::{Sliced, slice};
use trying::trying::try_order;
use writer::writes::write;

// Over routes by value.
pub fn over_routes(op: OverJob, script: &mut Script<'_>, out: &mut Answer) -> Result<(), Stop> {
    let r = Routes::take(script)?;
    let job = RouteJob {
        old: &r.old,
        new: &r.new,
        done: r.done_names(),
    };
    answer(op, &job, script, out)
}

// The job is taken already; then the order, the work or the out slice.
pub fn answer<J: Lay>(
    op: OverJob,
    job: &J,
    script: &mut Script<'_>,
    out: &mut Answer,
) -> Result<(), Stop> {
    match op {
        OverJob::Run => drive_answers::fired(out, run(job))?,
        OverJob::Slice => drive_answers::sliced(out, &Sliced::from(slice(job)))?,
        OverJob::Try => drive_answers::fired(out, try_order(job, &script.bytes()?))?,
        OverJob::Judge => {
            let mut work = script.fill()?;
            let r = Judged::from(judge(job, &mut work));
            drive_answers::judged(out, &r, &work)?;
        }
        OverJob::Write => {
            let mut text = script.fill()?;
            let r = Wrote::from(write(job, &mut text));
            drive_answers::wrote(out, &r, &text)?;
        }
    }
    Ok(())
}

pub fn fire(script: &mut Script<'_>, out: &mut Answer) -> Result<(), Stop> {
    let tokens = u64::take(script)?;
    let step = Step::take(script)?;
    Ok(drive_answers::fired(out, route::firing::fire(Marking { tokens }, step))?)
}
