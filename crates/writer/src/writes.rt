// Write: rows 4, 2, 3, 5, then 15.
ghost use Rattle.std.specs.Prelude.{◌≡◌, ◌≤◌, length};
ghost use Rattle.emit.specs.Emit.{Room, Emits};
ghost use Rattle.job.specs.Job.{job_in};
ghost use Rattle.out_slice.specs.OutSlice.{wrote_of, wrote_text, out_with};
ghost use Rattle.writer.specs.Written.{written_by};
ghost use Rattle.writer.specs.Writes.{wrote, out_after};

use job::FlatJob;
use job::checks::check_lines;
use job::laying::Lay;
use layout::Word;
use refusal::Refusal;
use version::{Numbers, Version};

// No job whose lines pass has a longer text, in any version (proofs/Bound.antt).
const LONGEST: usize = 20500;

// The whole text, from the slice's start.
fn text(v: Numbers, out: &mut [u8], job: FlatJob) -> usize
    requires { Room (written_by v (job_in job)) out.old 0 }
    ensures { Emits (written_by v (job_in job.entry)) out.old 0 out.new result }
{
    let a = sheet_lines::route_lines(v, out, 0, Word::Old, job.old_places, job.old);
    let b = sheet_lines::route_lines(v, out, a, Word::New, job.new_places, job.new);
    sheet_lines::job_lines(out, b, job.done)
}

// The text by a version, or 15: the bytes written. No other row is looked at here.
pub fn write_text(v: Numbers, job: FlatJob, out: &mut [u8]) -> Result<usize, Refusal>
    requires { length (written_by v (job_in job)) ≤ 20500 }
    ensures { (wrote_of result ≡ wrote_text (written_by v (job_in job.entry)) (length out.old))
        × (out.new ≡ out_with (written_by v (job_in job.entry)) out.old) }
{
    // the closure takes a copy of the job: what is lent can't be captured whole
    out_slice::write::<LONGEST, _>(out, move |out| text(v, out, FlatJob { ..job }))
}

// Write over lists of steps: the bytes written.
pub fn write_lists(job: FlatJob, out: &mut [u8]) -> Result<usize, Refusal>
    ensures { (wrote_of result ≡ wrote (job_in job.entry) (length out.old))
        × (out.new ≡ out_after (job_in job.entry) out.old) }
{
    check_lines(job)?;
    write_text(Version::PRESENT.numbers, job, out)
}

// The operation write, on records.
#[tactic(auto, using(crate::proofs::LongLists::wrote_cut, crate::proofs::LongLists::out_cut))]
pub fn write<J: Lay>(job: &J, out: &mut [u8]) -> Result<usize, Refusal>
    ensures { (wrote_of result ≡ wrote (J.job job.now) (length out.old))
        × (out.new ≡ out_after (J.job job.now) out.old) }
{
    let mut a = [0u64; 260];
    let mut b = [0u64; 260];
    let flat = job.lay(&mut a, &mut b);
    write_lists(flat, out)
}
