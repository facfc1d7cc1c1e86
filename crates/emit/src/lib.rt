// Emitters: each writes its text into a lent slice from `at` on and returns the place after it. The caller sees to it
// that there is room for the text, so that no byte is tested for room.
// `out` and `at` are two parameters: a struct that has both, lent as `&mut`, keeps `at` in memory, and a long listing
// takes twice as long; a struct handed on by value tells its caller nothing of the slice.
// Numbers are written here, since `write!` tests each write for room and can fail.
#![tactic(auto)]

ghost use Rattle.std.specs.Prelude.{[], ◌∷◌, ◌+◌, ◌<◌, ◌≤◌, ◌/◌, ◌%◌};
ghost use Rattle.mask.specs.Mask.{members};
ghost use Rattle.emit.specs.Emit.{Room, Emits};
ghost use Rattle.emit.specs.Numbers.{decimal, pair_text, over, entry as entry_text};

use mask::Mask;

pub fn put(out: &mut [u8], at: usize, b: u8) -> usize
    requires { Room (b ∷ []) out.old at }
    ensures { Emits (b ∷ []) out.old at out.new result }
{
    out[at] = b;
    at + 1
}

// Given bytes, one by one: texts are short, and a call of a copy for each is slower.
pub fn text(out: &mut [u8], at: usize, t: &[u8]) -> usize
    requires { Room t.now out.old at }
    ensures { Emits t.now out.old at out.new result }
{
    let mut end = at;
    for b in t {
        end = put(out, end, *b);
    }
    end
}

// Two digits.
fn pair(out: &mut [u8], at: usize, n: u64) -> usize
    requires n_bound { n < 100 }
    requires room { Room (pair_text n) out.old at }
    ensures { Emits (pair_text n) out.old at out.new result }
{
    let last = put(out, at, 48 + (n / 10) as u8);
    put(out, last, 48 + (n % 10) as u8)
}

// A number below 100, as most are.
fn short(out: &mut [u8], at: usize, n: u64) -> usize
    requires n_bound { n < 100 }
    requires room { Room (decimal n) out.old at }
    ensures { Emits (decimal n) out.old at out.new result }
{
    if n < 10 {
        return put(out, at, 48 + n as u8);
    }
    pair(out, at, n)
}

// A number in base ten, two digits at a time.
fn digits(out: &mut [u8], at: usize, n: u64) -> usize
    requires { Room (decimal n) out.old at }
    ensures { Emits (decimal n) out.old at out.new result }
{
    if n < 100 {
        return short(out, at, n);
    }
    let last = digits(out, at, n / 100);
    pair(out, last, n % 100)
}

// One space and a number. A short one takes no call of a function that calls itself, so that it is compiled in place.
pub fn entry(out: &mut [u8], at: usize, n: u64) -> usize
    requires { Room (entry_text n) out.old at }
    ensures { Emits (entry_text n) out.old at out.new result }
{
    let first = put(out, at, b' ');
    if 99 < n {
        return digits(out, first, n);
    }
    short(out, first, n)
}

// The members of a mask, rising, as entries, bit 0 numbered `first`: from one set bit to the next.
pub fn entries(out: &mut [u8], at: usize, m: u64, first: u64) -> usize
    requires first_bound { first ≤ 1 }
    requires room { Room (over (λ v. entry_text (first + v)) (members 64 m)) out.old at }
    ensures { Emits (over (λ v. entry_text (first + v)) (members 64 m)) out.old at
        out.new result }
{
    let mut end = at;
    for v in m.members() {
        end = entry(out, end, first + v as u64);
    }
    end
}
