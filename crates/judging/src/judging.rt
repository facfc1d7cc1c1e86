// The operation judge: row 14, the lines, the rows to 12, then the straight list where there is one, else the first fit
// list of the kept.
ghost use Rattle.std.specs.Prelude.{◌≡◌, ◌≤◌, length, None, Ok};
ghost use Rattle.flat.specs.Flat.{steps_in};
ghost use Rattle.precedence.specs.Table.{table};
ghost use Rattle.work_slice.specs.WorkSlice.{cleared};
ghost use Rattle.job.specs.Job.{job_in};
ghost use Rattle.job.specs.Lines.{LinesPass};
ghost use Rattle.matching.specs.inner.Pairs.{done_in, matched_in};
ghost use Rattle.answering.specs.Answer.{judged_of};
ghost use Rattle.judging.specs.Judge.{judged, work_after};
ghost use Rattle.judging.specs.inner.Passing.{Passing};
ghost use Rattle.judging.specs.inner.Answers.{AnswersStraight, AnswersFirst, AnswersRows, Works};

use answering::answers::{answered, straight_order};
use answering::{Moved, Placed};
use candidates::gathering::{columns, placed, search_columns};
use job::FlatJob;
use job::checks::check_lines;
use job::laying::Lay;
use mask::Mask;
use matching::Pairs;
use precedence::table_of;
use preparing::{Prepared, pairs_of, prepare};
use refusal::{Refusal, Row};
use route::Marking;
use work_slice::WORK;

// The straight list, after which all count as kept.
fn judge_straight(occurrences: &[u64], rows: [u64; 64], vars: u32, marking: Marking) -> Moved
    requires { length (steps_in occurrences.now) ≤ 64 }
    ensures { AnswersStraight rows vars marking.tokens (steps_in occurrences.now) (judged_of (Ok result)) }
{
    let len = flat::count(occurrences);
    let kept = u64::below(len as u64);
    let order = straight_order(len);
    let list = Placed {
        len,
        order,
        marking,
    };
    answered(occurrences, &rows, vars, kept, list)
}

// The first fit list of the kept, or 13.
fn judge_kept(p: Prepared, pairs: Pairs, rows: [u64; 64], work: &mut [u8]) -> Result<Moved, Refusal>
    requires passing { Passing p (done_in pairs) (matched_in pairs) }
    requires straight_value { p.straight ≡ None }
    requires rows_value { rows ≡ table (done_in pairs) }
    requires in_bounds { 8192 ≤ length work.old }
    ensures answers_first { AnswersFirst p (done_in pairs.entry) (matched_in pairs.entry) (judged_of result) }
    ensures work_after { work.new ≡ cleared 8192 work.old }
{
    let start = p.start;
    let c = columns(p.kept, &rows, pairs.matches);
    let Some(order) = search_columns(&c, start, work) else {
        return Err(Row::NoFitOrder.at(p.line));
    };
    let list = placed(&c, order, start);
    Ok(answered(pairs.occurrences, &rows, p.vars, p.kept, list))
}

// What judge answers in a job that no row to 12 refuses.
fn judge_prepared(p: Prepared, pairs: Pairs, work: &mut [u8]) -> Result<Moved, Refusal>
    requires passing { Passing p (done_in pairs) (matched_in pairs) }
    requires in_bounds { 8192 ≤ length work.old }
    ensures answers_rows { AnswersRows p (done_in pairs.entry) (matched_in pairs.entry) (judged_of result) }
    ensures works { Works p (done_in pairs.entry) (matched_in pairs.entry) work.old work.new }
{
    let rows = table_of(pairs.occurrences);
    match p.straight {
        Some(m) => Ok(judge_straight(pairs.occurrences, rows, p.vars, m)),
        None => judge_kept(p, pairs, rows, work),
    }
}

// Judge from row 6 on, with room to work. `prepare` and `pairs_of` are what it shares with try.
pub fn judge_checked(job: FlatJob, work: &mut [u8]) -> Result<Moved, Refusal>
    requires lines_pass { LinesPass (job_in job) }
    requires in_bounds { 8192 ≤ length work.old }
    ensures value { judged_of result ≡ judged (job_in job.entry) (length work.old) }
    ensures work_after { work.new ≡ work_after (job_in job.entry) work.old }
{
    let mut occurrences = [0u64; 256];
    let mut matches = [0u64; 256];
    let p = prepare(job, &mut occurrences, &mut matches);
    p.rows?;
    let pairs = pairs_of(job, &occurrences, &matches);
    judge_prepared(p, pairs, work)
}

// Judge over lists of steps.
pub fn judge_lists(job: FlatJob, work: &mut [u8]) -> Result<Moved, Refusal>
    ensures value { judged_of result ≡ judged (job_in job.entry) (length work.old) }
    ensures work_after { work.new ≡ work_after (job_in job.entry) work.old }
{
    if work.len() < WORK {
        return Err(Row::ShortWork.at(0));
    }
    check_lines(job)?;
    judge_checked(job, work)
}

// The operation judge, on records.
#[tactic(auto, using(crate::proofs::LongLists::judged_cut, crate::proofs::LongLists::work_cut))]
pub fn judge<J: Lay>(job: &J, work: &mut [u8]) -> Result<Moved, Refusal>
    ensures value { judged_of result ≡ judged (J.job job.now) (length work.old) }
    ensures work_after { work.new ≡ work_after (J.job job.now) work.old }
{
    let mut a = [0u64; 260];
    let mut b = [0u64; 260];
    let flat = job.lay(&mut a, &mut b);
    judge_lists(flat, work)
}
