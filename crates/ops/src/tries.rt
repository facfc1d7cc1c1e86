// Try on a sheet's bytes.
ghost use Rattle.std.specs.Prelude.{◌≡◌};
ghost use Rattle.route.specs.Firing.{fired_of};
ghost use Rattle.ops.specs.SheetTry.{tried_sheet};

use reader::lists::{Lists, read_lists};
use refusal::Refusal;
use route::Marking;
use trying::trying::try_checked;

// Any sheet, any order. Reading has checked the lines; a refused sheet's row and place stand for it. `read_lists` and
// `Lists::job` are what it shares with print.
pub fn try_sheet(sheet: &[u8], order: &[u8]) -> Result<Marking, Refusal>
    ensures { fired_of result ≡ tried_sheet sheet.now order.now }
{
    let mut lists = Lists::EMPTY;
    let c = read_lists(sheet, &mut lists)?;
    try_checked(lists.job(c), order)
}
