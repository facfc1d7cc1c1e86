// The members of a mask, rising.
ghost use Rattle.std.specs.Prelude.{◌≡◌, MatchOption};
ghost use Rattle.std.specs.Iterator.{at_most};
ghost use Rattle.mask.specs.Mask.{count};
ghost use Rattle.mask.specs.Members.{Takes};

use crate::Mask;

// What is left of a mask.
#[derive(Drop)]
pub struct Members<M> {
    pub left: M,
}

impl<M: Mask> Iterator for Members<M> {
    type Item = usize;

    ghost next_gives = { λ s r t. MatchOption r (M.number s.left ≡ 0)
        (λ v. Takes M.WIDTH (M.number s.left) v (M.number t.left)) };

    ghost remaining = { λ s. at_most (count M.WIDTH (M.number s.left)) };

    fn next(&mut self) -> Option<usize> {
        let m = self.left;
        if m == M::empty() {
            return None;
        }
        let lowest = m.lowest();
        self.left = m & (m - M::bit(0));
        Some(lowest)
    }
}
