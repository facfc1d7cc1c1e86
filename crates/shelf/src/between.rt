// The operation judge between two editions: row 14, a bad shelf, the editions; then judge for their routes. Edition and
// target are two numbers, as 02 has them.
ghost use Rattle.std.specs.Prelude.{◌≡◌, length};
ghost use Rattle.answering.specs.Answer.{judged_of};
ghost use Rattle.shelf.specs.Judge.{judged_between, work_between};
ghost use Rattle.shelf.specs.inner.Entries.{entries_in};

use crate::editions::{is_good, numbers_in, position_of};
use crate::{Edition, Shelf};
use answering::Moved;
use job::laying::RouteJob;
use refusal::{Refusal, Row};
use work_slice::WORK;

// Where both editions stand, where the target is later.
fn entries_of(numbers: &[u32], edition: u32, target: u32) -> Option<(usize, usize)>
    ensures { result ≡ entries_in edition target numbers.now }
{
    if target <= edition {
        return None;
    }
    let i = position_of(numbers, edition)?;
    let j = position_of(numbers, target)?;
    Some((i, j))
}

pub fn judge(
    s: &Shelf,
    edition: u32,
    target: u32,
    done: &[u32],
    work: &mut [u8],
) -> Result<Moved, Refusal>
    ensures value { judged_of result ≡ judged_between s.now edition target done.now (length work.old) }
    ensures work_after { work.new ≡ work_between s.now edition target done.now work.old }
{
    if work.len() < WORK {
        return Err(Row::ShortWork.at(0));
    }
    let len = s.len;
    let numbers = numbers_in(s);
    if !is_good(len, &numbers) {
        return Err(Row::BadShelf.at(1));
    }
    let Some((i, j)) = entries_of(&numbers[..len], edition, target) else {
        return Err(Row::NoEdition.at(0));
    };
    let editions: &[Edition] = &s.editions;
    let old = &editions[i].route;
    let new = &editions[j].route;
    judging::judging::judge(&RouteJob { old, new, done }, work)
}
