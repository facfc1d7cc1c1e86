// Up: a sheet of 01's layout by the present one. Rows 1, 4, 2, 3, 5, 6 and 7 as 01 has them, then 15.
ghost use Rattle.std.specs.Prelude.{◌≡◌, ◌≤◌, length};
ghost use Rattle.out_slice.specs.OutSlice.{wrote_of};
ghost use Rattle.job.specs.Job.{job_in};
ghost use Rattle.converting.specs.Up.{with_implied, raised, out_raised};

use crate::nets::check_nets;
use job::FlatJob;
use opening::implied;
use reader::lists::{Lists, read_lists_by};
use refusal::Refusal;
use version::Version;
use writer::writes::write_text;

// The job with the start that each route implies.
fn with_implied(job: FlatJob<'_>) -> FlatJob<'_>
    requires { (job.old_places.count ≤ 64) × (job.new_places.count ≤ 64) }
    ensures { job_in result ≡ with_implied (job_in job.entry) }
{
    FlatJob {
        old_places: implied(job.old_places.count, job.old),
        new_places: implied(job.new_places.count, job.new),
        ..job
    }
}

// Any bytes, any out slice: the bytes written.
pub fn up(sheet: &[u8], out: &mut [u8]) -> Result<usize, Refusal>
    ensures value { wrote_of result ≡ raised sheet.now (length out.old) }
    ensures out_after { out.new ≡ out_raised sheet.now out.old }
{
    let mut lists = Lists::EMPTY;
    let c = read_lists_by(Version::SCOPE, sheet, &mut lists)?;
    let job = with_implied(lists.job(c));
    check_nets(Version::SCOPE.numbers, job)?;
    write_text(Version::PRESENT.numbers, job, out)
}
