// Reading a sheet by value.
ghost use Rattle.std.specs.Prelude.{◌≡◌};
ghost use Rattle.flat.specs.Flat.{steps_in};
ghost use Rattle.version.specs.Limits.{scope};
ghost use Rattle.facts.specs.Facts.{read_by, read_of, sheet_told};
ghost use Rattle.reader.specs.inner.Read.{route_in};

use crate::lists::{Lists, read_lists_by};
use facts::Records;
use refusal::Refusal;
use route::{Places, Route};
use std::array;
use version::Version;

// A route by value of the steps in 256 numbers: how many count stands beside them, as in the record.
fn route_in(places: Places, len: usize, list: &[u64; 256]) -> Route
    ensures { result ≡ route_in places len (steps_in list.now) }
{
    Route {
        places,
        len,
        steps: array::from_fn(|i| flat::step_at(list, i)),
    }
}

fn read_by(v: Version, sheet: &[u8]) -> Result<Records, Refusal>
    ensures { sheet_told result ≡ read_by v sheet.now }
{
    let mut lists = Lists::EMPTY;
    let c = read_lists_by(v, sheet, &mut lists)?;
    let a = route_in(c.old_places, c.old_len, &lists.old_steps);
    let b = route_in(c.new_places, c.new_len, &lists.new_steps);
    Ok(Records {
        old: a,
        new: b,
        done_len: c.done_len,
        done: lists.done,
    })
}

// The operation read, by value.
pub fn read(sheet: &[u8]) -> Result<Records, Refusal>
    ensures { sheet_told result ≡ read_of sheet.now }
{
    read_by(Version::PRESENT, sheet)
}

// A sheet of 01's layout.
pub fn read_scope(sheet: &[u8]) -> Result<Records, Refusal>
    ensures { sheet_told result ≡ read_by scope sheet.now }
{
    read_by(Version::SCOPE, sheet)
}
