// Either way: a sheet's second line tells its version.
ghost use Rattle.std.specs.Prelude.{◌≡◌, length};
ghost use Rattle.out_slice.specs.OutSlice.{wrote_of};
ghost use Rattle.converting.specs.Either.{has_start_line, converted, out_converted};

use crate::down::down;
use crate::up::up;
use reader::part::past_lines;
use refusal::Refusal;
use tokens::texts;

fn has_start_line(sheet: &[u8]) -> bool
    ensures { result ≡ has_start_line sheet.now }
{
    let k = past_lines(sheet, 1);
    sheet[k..].starts_with(&texts::START)
}

// A sheet of either version by the other.
#[tactic(auto, unfolding(crate::specs::Either::converted, crate::specs::Either::out_converted))]
pub fn convert(sheet: &[u8], out: &mut [u8]) -> Result<usize, Refusal>
    ensures value { wrote_of result ≡ converted sheet.now (length out.old) }
    ensures out_after { out.new ≡ out_converted sheet.now out.old }
{
    if has_start_line(sheet) {
        return down(sheet, out);
    }
    up(sheet, out)
}
