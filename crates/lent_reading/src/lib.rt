// Reading a sheet into lent lists.
#![tactic(auto)]

ghost use Rattle.std.specs.Prelude.{◌≡◌, ◌≤◌, length, IfOk};
ghost use Rattle.records.specs.Overlaid.{overlaid};
ghost use Rattle.facts.specs.Facts.{read_of};
ghost use Rattle.reader.specs.Lists.{no_lists};
ghost use Rattle.reader.specs.Refused.{counts_of};
ghost use Rattle.lent_reading.specs.Reading.{counted};
ghost use Rattle.lent_reading.specs.inner.Counted.{Counted};

use reader::Lengths;
use reader::lists::{Lists, read_lists};
use records::fill;
use refusal::{Refusal, Row};
use route::Step;

// The sheet into its lists, and then row 15 for each list that they go into, by its length.
fn read_counted(
    sheet: &[u8],
    lists: &mut Lists,
    old: usize,
    new: usize,
    done: usize,
) -> Result<Lengths, Refusal>
    requires { lists.old ≡ no_lists }
    ensures answer { counts_of result ≡ counted (read_of sheet.now) old new done }
    ensures held { IfOk result (λ l. Counted sheet.now old new done l lists.new.old_steps lists.new.new_steps
        lists.new.done) }
{
    let c = read_lists(sheet, lists)?;
    if old < c.old_len {
        return Err(Row::ShortSlice.at(c.old_len as u64));
    }
    if new < c.new_len {
        return Err(Row::ShortSlice.at(c.new_len as u64));
    }
    if done < c.done_len {
        return Err(Row::ShortSlice.at(c.done_len as u64));
    }
    Ok(c)
}

// The first n names into a lent list.
fn put(out: &mut [u32], n: usize, names: &[u32])
    requires { (n ≤ length names.now) × (n ≤ length out.old) }
    ensures { out.new ≡ overlaid n names.now out.old }
{
    out[..n].copy_from_slice(&names[..n]);
}

// The sheet's records over the lists; of a sheet that is refused, nothing.
#[tactic(auto, using(flat::proofs::FlatSteps::flat_lengths))]
pub fn read(
    sheet: &[u8],
    old: &mut [Step],
    new: &mut [Step],
    done: &mut [u32],
) -> Result<Lengths, Refusal>
    ensures answer { counts_of result ≡ counted (read_of sheet.now) (length old.old) (length new.old) (length done.old) }
    ensures old_list { old.new ≡ overlaid (counts_of result).old_len (read_of sheet.now).old.steps old.old }
    ensures new_list { new.new ≡ overlaid (counts_of result).new_len (read_of sheet.now).new.steps new.old }
    ensures done_list { done.new ≡ overlaid (counts_of result).done_len (read_of sheet.now).done done.old }
{
    let mut lists = Lists::EMPTY;
    let c = read_counted(sheet, &mut lists, old.len(), new.len(), done.len())?;
    fill(old, c.old_len, &lists.old_steps);
    fill(new, c.new_len, &lists.new_steps);
    put(done, c.done_len, &lists.done);
    Ok(c)
}
