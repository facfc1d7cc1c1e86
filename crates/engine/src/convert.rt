// Up and down as C functions: an answer's number is returned, its other numbers are stored, on every path.
ghost use Rattle.std.specs.Prelude.{◌≡◌, length};
ghost use Rattle.converting.specs.Down.{lowered, out_lowered};
ghost use Rattle.converting.specs.Up.{raised, out_raised};

use converting::down::down;
use converting::up::up;
use out_slice::Wrote;

#[unsafe(no_mangle)]
pub extern "C" fn reroute_up(
    sheet: &[u8],
    out: &mut [u8],
    second: &mut u64,
    written: &mut u64,
) -> u32
    ensures value { result ≡ (raised sheet.now (length out.old)).number }
    ensures second_after { second.new ≡ (raised sheet.now (length out.old)).second }
    ensures written_after { written.new ≡ (raised sheet.now (length out.old)).written }
    ensures out_after { out.new ≡ out_raised sheet.now out.old }
{
    let raised = Wrote::from(up(sheet, out));
    *second = raised.second;
    *written = raised.written;
    raised.number
}

#[unsafe(no_mangle)]
pub extern "C" fn reroute_down(
    sheet: &[u8],
    out: &mut [u8],
    second: &mut u64,
    written: &mut u64,
) -> u32
    ensures value { result ≡ (lowered sheet.now (length out.old)).number }
    ensures second_after { second.new ≡ (lowered sheet.now (length out.old)).second }
    ensures written_after { written.new ≡ (lowered sheet.now (length out.old)).written }
    ensures out_after { out.new ≡ out_lowered sheet.now out.old }
{
    let lowered = Wrote::from(down(sheet, out));
    *second = lowered.second;
    *written = lowered.written;
    lowered.number
}
