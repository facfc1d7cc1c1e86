// Sets of small numbers as bit masks. What each function means is said in specs/Mask.antt,
// and the laws in proofs/ hold for any width.
#![tactic(auto)]

ghost use Rattle.std.specs.Prelude.{◌≡◌, ◌<◌, ◌≤◌, ◌-◌, ◌^◌, ℕ, eqb};
ghost use Rattle.std.specs.Int.Count.{count_trailing_zeros};
ghost use Rattle.std.specs.Int.Bits.{bit_and, bit_xor};
ghost use Rattle.std.proofs.Common.{refl};
ghost use Rattle.mask.specs.Mask.{has, bit, below, without, within, meets, count};

pub mod iter;

use crate::iter::Members;
use std::ops::{BitAnd, BitXor, Sub};

// A number as the set of its bits. By the laws `&`, `^` and `-` of two masks are those of their numbers.
pub trait Mask: Copy
    + PartialEq
    + BitAnd<Self, Output = Self>
    + BitXor<Self, Output = Self>
    + Sub<Self, Output = Self> {
    ghost number: { Self → ℕ };

    ghost WIDTH: { ℕ };

    const WIDTH: u64;

    fn empty() -> Self
        ensures { number result ≡ 0 };

    fn all() -> Self
        ensures { number result ≡ below WIDTH };

    fn bit(v: usize) -> Self
        requires { v < WIDTH }
        ensures { number result ≡ bit v };

    fn count(self) -> u32
        ensures { result ≡ count WIDTH (number self) };

    // The lowest member, or the width where there is none.
    fn lowest(self) -> usize
        ensures is { result ≡ count_trailing_zeros WIDTH (number self) }
        ensures fits { number self < 2 ^ WIDTH };

    ghost eq_law: { (a b : Self) → Self.eq a b ≡ eqb (number a) (number b) };

    ghost can_bitand_law: { (a b : Self) → Self.can_bitand a b };

    ghost bitand_law: { (a b r : Self) → Self.bitand_gives a b r
        → number r ≡ bit_and (number a) (number b) };

    ghost can_bitxor_law: { (a b : Self) → Self.can_bitxor a b };

    ghost bitxor_law: { (a b r : Self) → Self.bitxor_gives a b r
        → number r ≡ bit_xor (number a) (number b) };

    ghost can_sub_law: { (a b : Self) → number b ≤ number a → Self.can_sub a b };

    ghost sub_law: { (a b r : Self) → Self.sub_gives a b r → number r ≡ number a - number b };

    final fn within(self, b: Self) -> bool
        ensures { result ≡ within (number self) (number b) }
    {
        self & b == self
    }

    final fn meets(self, b: Self) -> bool
        ensures { result ≡ meets (number self) (number b) }
    {
        self & b != Self::empty()
    }

    final fn without(self, b: Self) -> Self
        ensures { number result ≡ without (number self) (number b) }
    {
        self ^ (self & b)
    }

    #[tactic(auto, using(crate::proofs::Laws::meets_bit))]
    final fn holds(self, v: usize) -> bool
        requires { v < WIDTH }
        ensures { result ≡ has (number self) v }
    {
        self.meets(Self::bit(v))
    }

    // The members in turn, rising.
    final fn members(self) -> Members<Self>
        ensures { result.left ≡ self }
    {
        Members { left: self }
    }

    final fn below(n: u64) -> Self
        requires { n ≤ WIDTH }
        ensures { number result ≡ below n }
    {
        if n < Self::WIDTH {
            Self::bit(n as usize) - Self::bit(0)
        } else {
            Self::all()
        }
    }
}

impl Mask for u32 {
    ghost number = { λ x. x };

    ghost WIDTH = { 32 };

    const WIDTH: u64 = 32;

    fn empty() -> u32 {
        u32::MIN
    }

    fn all() -> u32 {
        u32::MAX
    }

    fn bit(v: usize) -> u32 {
        1 << v
    }

    #[tactic(auto, using(crate::proofs::Laws::count_ones))]
    fn count(self) -> u32 {
        u32::count_ones(self)
    }

    fn lowest(self) -> usize {
        u32::trailing_zeros(self) as usize
    }

    ghost eq_law = { λ a b. refl };

    ghost can_bitand_law = { λ a b. tt };

    ghost bitand_law = { λ a b r h. h };

    ghost can_bitxor_law = { λ a b. tt };

    ghost bitxor_law = { λ a b r h. h };

    ghost can_sub_law = { λ a b h. h };

    ghost sub_law = { λ a b r h. h };
}

impl Mask for u64 {
    ghost number = { λ x. x };

    ghost WIDTH = { 64 };

    const WIDTH: u64 = 64;

    fn empty() -> u64 {
        u64::MIN
    }

    fn all() -> u64 {
        u64::MAX
    }

    fn bit(v: usize) -> u64 {
        1 << v
    }

    #[tactic(auto, using(crate::proofs::Laws::count_ones))]
    fn count(self) -> u32 {
        u64::count_ones(self)
    }

    fn lowest(self) -> usize {
        u64::trailing_zeros(self) as usize
    }

    ghost eq_law = { λ a b. refl };

    ghost can_bitand_law = { λ a b. tt };

    ghost bitand_law = { λ a b r h. h };

    ghost can_bitxor_law = { λ a b. tt };

    ghost bitxor_law = { λ a b r h. h };

    ghost can_sub_law = { λ a b h. h };

    ghost sub_law = { λ a b r h. h };
}
