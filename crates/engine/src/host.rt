// Try and print as C functions: an answer's number is returned, its other numbers are stored, on every path.
ghost use Rattle.std.specs.Prelude.{◌≡◌, length};
ghost use Rattle.ops.specs.Print.{printed, out_printed, work_printed};
ghost use Rattle.ops.specs.SheetTry.{tried_sheet};

use ops::print::print;
use ops::tries::try_sheet;
use out_slice::Wrote;
use route::Fired;

#[unsafe(no_mangle)]
pub extern "C" fn reroute_try(
    sheet: &[u8],
    order: &[u8],
    second: &mut u64,
    marking: &mut u64,
) -> u32
    ensures value { result ≡ (tried_sheet sheet.now order.now).number }
    ensures second_after { second.new ≡ (tried_sheet sheet.now order.now).second }
    ensures marking_after { marking.new ≡ (tried_sheet sheet.now order.now).marking.tokens }
{
    let t = Fired::from(try_sheet(sheet, order));
    *second = t.second;
    *marking = t.marking.tokens;
    t.number
}

#[unsafe(no_mangle)]
pub extern "C" fn reroute_print(
    sheet: &[u8],
    work: &mut [u8],
    out: &mut [u8],
    second: &mut u64,
    written: &mut u64,
) -> u32
    ensures value { result ≡ (printed sheet.now (length work.old)
        (length out.old)).number }
    ensures second_after { second.new ≡ (printed sheet.now (length work.old)
        (length out.old)).second }
    ensures written_after { written.new ≡ (printed sheet.now (length work.old)
        (length out.old)).written }
    ensures work_after { work.new ≡ work_printed sheet.now work.old }
    ensures out_after { out.new ≡ out_printed sheet.now (length work.old)
        out.old }
{
    let w = Wrote::from(print(sheet, work, out));
    *second = w.second;
    *written = w.written;
    w.number
}
