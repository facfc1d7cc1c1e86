// A job whose routes are lent lists of step records; it is laid as numbers for the operations.
#![tactic(auto)]

ghost use Rattle.lent.specs.Lent.{lent_in};

use job::FlatJob;
use job::laying::Lay;
use records::lay;
use route::{Places, Step};

#[derive(Clone, Copy)]
pub struct LentJob<'r> {
    pub old_places: Places,
    pub old: &'r [Step],
    pub new_places: Places,
    pub new: &'r [Step],
    pub done: &'r [u32],
}

impl<'r> Lay for LentJob<'r> {
    ghost job = { lent_in };

    fn lay<'a>(&'a self, a: &'a mut [u64; 260], b: &'a mut [u64; 260]) -> FlatJob<'a> {
        let n = lay(self.old, a);
        let m = lay(self.new, b);
        FlatJob {
            old_places: self.old_places,
            old: &a[..n],
            new_places: self.new_places,
            new: &b[..m],
            done: self.done,
        }
    }
}
