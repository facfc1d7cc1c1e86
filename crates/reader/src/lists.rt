// The lists of a sheet, and reading a sheet into them.
ghost use Rattle.std.specs.Prelude.{◌≡◌, ◌*◌, ◌≤◌, take};
ghost use Rattle.job.specs.Job.{flat_job, job_in};
ghost use Rattle.reader.specs.Lists.{no_lists};
ghost use Rattle.reader.specs.Refused.{counts_of};
ghost use Rattle.reader.specs.inner.Read.{PartsInto, ReadInto, ReadTo};

use crate::Lengths;
use job::FlatJob;
use part_reader::parts;
use refusal::{Refusal, Row};
use tokens::Broken;
use version::Version;

// Both routes' steps as numbers, and the done names, for the longest lists (fixed memory, no heap).
#[derive(Drop)]
pub struct Lists {
    pub old_steps: [u64; 256],
    pub new_steps: [u64; 256],
    pub done: [u32; 64],
}

impl Lists {
    // A const, where a function would hand 4,352 bytes back by value.
    pub const EMPTY: Lists = Lists {
        old_steps: [0; 256],
        new_steps: [0; 256],
        done: [0; 64],
    };

    pub fn empty() -> Lists
        ensures { result ≡ no_lists }
    {
        Lists::EMPTY
    }

    // The job that the lists hold.
    pub fn job(&self, c: Lengths) -> FlatJob<'_>
        requires { (c.old_len ≤ 64) × ((c.new_len ≤ 64) × (c.done_len ≤ 64)) }
        ensures { job_in result ≡ flat_job c.old_places (take (4 * c.old_len) self.now.old_steps) c.new_places
            (take (4 * c.new_len) self.now.new_steps) (take c.done_len self.now.done) }
    {
        FlatJob {
            old_places: c.old_places,
            old: &self.old_steps[..4 * c.old_len],
            new_places: c.new_places,
            new: &self.new_steps[..4 * c.new_len],
            done: &self.done[..c.done_len],
        }
    }
}

// The parts in turn, into empty lists. (To make the lists here would hand 4,352 bytes back, and to clear them would do
// again what its caller does by `Lists::EMPTY`.) Where the layout breaks, a row that refuses a line above does not
// matter.
fn parts_by(v: Version, sheet: &[u8], lists: &mut Lists) -> Result<Result<Lengths, Refusal>, Broken>
    requires { lists.old ≡ no_lists }
    ensures { PartsInto v sheet.now result lists.new.old_steps lists.new.new_steps lists.new.done }
{
    let a = parts::old_head(v, sheet)?;
    let b = parts::steps(v, sheet, a.pass, a.places, &mut lists.old_steps)?;
    let c = parts::new_head(v, sheet, b.pass, b.len)?;
    let d = parts::steps(v, sheet, c.pass, c.places, &mut lists.new_steps)?;
    let e = parts::job_head(sheet, d.pass, d.len)?;
    let f = parts::dones(v, sheet, e, &mut lists.done)?;
    if let Err(e) = f.pass.rows {
        return Ok(Err(e));
    }
    Ok(Ok(Lengths {
        old_places: a.places,
        old_len: b.len,
        new_places: c.places,
        new_len: d.len,
        done_len: f.len,
    }))
}

// Reading by a version.
pub fn read_lists_by(v: Version, sheet: &[u8], lists: &mut Lists) -> Result<Lengths, Refusal>
    requires { lists.old ≡ no_lists }
    ensures { ReadInto v sheet.now (counts_of result) lists.new.old_steps lists.new.new_steps lists.new.done }
{
    match parts_by(v, sheet, lists) {
        Ok(r) => r,
        Err(e) => Err(Row::Layout.at(e.at as u64)),
    }
}

// By the present version.
pub fn read_lists(sheet: &[u8], lists: &mut Lists) -> Result<Lengths, Refusal>
    requires { lists.old ≡ no_lists }
    ensures { ReadTo sheet.now (counts_of result) lists.new.old_steps lists.new.new_steps lists.new.done }
{
    read_lists_by(Version::PRESENT, sheet, lists)
}
