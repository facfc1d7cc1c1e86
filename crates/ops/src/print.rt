// The operation print: a sheet in, its listing out.
ghost use Rattle.std.specs.Prelude.{◌≡◌, ◌≤◌, length};
ghost use Rattle.answering.specs.Answer.{judged_of};
ghost use Rattle.out_slice.specs.OutSlice.{wrote_of};
ghost use Rattle.ops.specs.Print.{sheet_answer, printed, out_printed, work_printed};

use answering::{Judged, Moved};
use judging::judging::judge_checked;
use listing::printing::write_listing;
use reader::lists::{Lists, read_lists};
use refusal::{Refusal, Row};
use work_slice::WORK;

// What judge answers of a sheet, whose lines reading has checked; a refused sheet's row and place stand for it.
fn answer(sheet: &[u8], work: &mut [u8]) -> Result<Moved, Refusal>
    requires { 8192 ≤ length work.old }
    ensures value { judged_of result ≡ sheet_answer sheet.now }
    ensures work_after { work.new ≡ work_printed sheet.now work.old }
{
    let mut lists = Lists::EMPTY;
    let c = read_lists(sheet, &mut lists)?;
    judge_checked(lists.job(c), work)
}

// Any sheet, any work slice, any out slice: three, as C hands them in.
pub fn print(sheet: &[u8], work: &mut [u8], out: &mut [u8]) -> Result<usize, Refusal>
    ensures value { wrote_of result ≡ printed sheet.now (length work.old) (length out.old) }
    ensures work_after { work.new ≡ work_printed sheet.now work.old }
    ensures out_after { out.new ≡ out_printed sheet.now (length work.old)
        out.old }
{
    if work.len() < WORK {
        return Err(Row::ShortWork.at(0));
    }
    let a = answer(sheet, work);
    write_listing(Judged::from(a), out)
}
