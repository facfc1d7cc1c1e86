// A job lent from the first records of two arrays, for a program whose records stand in arrays.
#![tactic(auto)]

ghost use Rattle.std.specs.Prelude.{◌≡◌, ◌≤◌, ◌++◌, length, take, drop};
ghost use Rattle.records.specs.Overlaid.{overlaid};
ghost use Rattle.facts.specs.Facts.{read_of};
ghost use Rattle.reader.specs.Refused.{counts_of};
ghost use Rattle.lent.specs.Lent.{lent_job, lent_in};
ghost use Rattle.lent_reading.specs.Reading.{counted};

use lent::LentJob;
use reader::Lengths;
use refusal::Refusal;
use route::{Places, Step};

// An array of records, of which the first `len` are lent: such a caller is what this crate shows.
#[derive(Clone, Copy)]
pub struct Array {
    pub steps: [Step; 100],
    pub len: usize,
    pub ghost few: { len ≤ 100 },
}

pub fn job<'a>(
    old_places: Places,
    old: &'a Array,
    new_places: Places,
    new: &'a Array,
    done: &'a [u32],
) -> LentJob<'a>
    ensures { lent_in result ≡ lent_job old_places (take old.now.len old.now.steps) new_places
        (take new.now.len new.now.steps) done.now }
{
    LentJob {
        old_places,
        old: &old.steps[..old.len],
        new_places,
        new: &new.steps[..new.len],
        done,
    }
}

// Reading into the records lent of both arrays.
pub fn read(
    sheet: &[u8],
    old: &mut Array,
    new: &mut Array,
    done: &mut [u32],
) -> Result<Lengths, Refusal>
    ensures answer { counts_of result ≡ counted (read_of sheet.now) old.old.len new.old.len (length done.old) }
    ensures old_len { old.new.len ≡ old.old.len }
    ensures old_list { old.new.steps ≡ overlaid (counts_of result).old_len (read_of sheet.now).old.steps
        (take old.old.len old.old.steps) ++ drop old.old.len old.old.steps }
    ensures new_len { new.new.len ≡ new.old.len }
    ensures new_list { new.new.steps ≡ overlaid (counts_of result).new_len (read_of sheet.now).new.steps
        (take new.old.len new.old.steps) ++ drop new.old.len new.old.steps }
    ensures done_list { done.new ≡ overlaid (counts_of result).done_len (read_of sheet.now).done done.old }
{
    let mut a = old.steps;
    let mut b = new.steps;
    let read = lent_reading::read(sheet, &mut a[..old.len], &mut b[..new.len], done);
    old.steps = a;
    new.steps = b;
    read
}
