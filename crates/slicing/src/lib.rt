// The operation slice: the rows to 9, then what is kept and the table.
#![tactic(auto)]

ghost use Rattle.std.specs.Prelude.{◌≡◌};
ghost use Rattle.job.specs.Job.{job_in};
ghost use Rattle.slicing.specs.Slicing.{sliced, sliced_of};

use job::FlatJob;
use job::checks::check_lines;
use job::laying::Lay;
use occurrences::narrow;
use precedence::table_of;
use refusal::Refusal;
use running::lists::begin;
use slice::sweeping::keep;
use slice::variables::variables_of;

// What is kept, and the table over all. Occurrence k is bit k - 1 of a mask and row k - 1 of the table.
#[derive(Clone, Copy)]
pub struct Slicing {
    pub kept: u64,
    pub table: [u64; 64],
}

// The same in plain numbers, as 01 says it: a refusal's two, or 0, 0 and the slice.
#[derive(Clone, Copy)]
pub struct Sliced {
    pub number: u32,
    pub second: u64,
    pub kept: u64,
    pub table: [u64; 64],
}

impl From<Result<Slicing, Refusal>> for Sliced {
    ghost from_gives = { λ r a. a ≡ sliced_of r };

    fn from(r: Result<Slicing, Refusal>) -> Sliced {
        match r {
            Ok(s) => {
                let table = s.table;
                Sliced {
                    number: 0,
                    second: 0,
                    kept: s.kept,
                    table,
                }
            }
            Err(e) => Sliced {
                number: e.row.number(),
                second: e.second,
                kept: 0,
                table: [0u64; 64],
            },
        }
    }
}

// The rows to 9 over lists of steps, then what is kept and the table.
pub fn slice_lists(job: FlatJob) -> Result<Slicing, Refusal>
    ensures { sliced_of result ≡ sliced (job_in job.entry) }
{
    check_lines(job)?;
    let mut occurrences = [0u64; 256];
    begin(job, &mut occurrences)?;
    narrow(job.old, job.done.len(), &mut occurrences);
    let end = 4 * job.done.len();
    let kept = keep(&occurrences[..end], variables_of(job.new));
    let table = table_of(&occurrences[..end]);
    Ok(Slicing { kept, table })
}

// The operation slice, on records.
#[tactic(auto, using(crate::proofs::SliceRows::sliced_cut))]
pub fn slice<J: Lay>(job: &J) -> Result<Slicing, Refusal>
    ensures { sliced_of result ≡ sliced (J.job job.now) }
{
    let mut a = [0u64; 260];
    let mut b = [0u64; 260];
    let flat = job.lay(&mut a, &mut b);
    slice_lists(flat)
}
