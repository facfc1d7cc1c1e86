// The precedence table: by variable, the earlier writers and the earlier readers of each; the earlier cuts; by place,
// the last putter.
#![tactic(auto)]

ghost use Rattle.std.specs.Prelude.{◌≡◌, cond, ℕ, ◌≤◌, length};
ghost use Rattle.std.specs.Int.Bits.{bit_or};
ghost use Rattle.flat.specs.Flat.{steps_in};
ghost use Rattle.precedence.specs.inner.ByItem.{ByItem, meeting, Gathers, Joins, Puts};
ghost use Rattle.precedence.specs.Table.{table};

use mask::Mask;

// One more occurrence that writes the variables: the earlier readers and writers of these.
fn after_writes(readers: &[u64; 32], writers: &mut [u64; 32], vars: u32, own: u64) -> u64
    ensures by_index { (f g : ℕ → ℕ) (n : ℕ) → ByItem 32 f n readers.now
        → ByItem 32 g n writers.old → result ≡ bit_or (meeting f vars n) (meeting g vars n) }
    ensures joins { Joins 32 writers.old vars own writers.new }
{
    let mut read = 0u64;
    let mut wrote = 0u64;
    for v in vars.members() {
        read |= readers[v];
        wrote |= writers[v];
        writers[v] |= own;
    }
    read | wrote
}

// One more occurrence that reads the variables: the writers of these.
fn after_reads(writers: &[u64; 32], readers: &mut [u64; 32], vars: u32, own: u64) -> u64
    ensures gathers { Gathers 32 writers.now vars result }
    ensures joins { Joins 32 readers.old vars own readers.new }
{
    let mut wrote = 0u64;
    for v in vars.members() {
        wrote |= writers[v];
        readers[v] |= own;
    }
    wrote
}

// One more occurrence that took tokens from places and put tokens on places: the last putters of those that it took.
fn after_takes(putters: &mut [u64; 64], taken: u64, put: u64, own: u64) -> u64
    ensures gathers { Gathers 64 putters.old taken result }
    ensures puts { Puts putters.old put own putters.new }
{
    let mut from = 0u64;
    for p in taken.members() {
        from |= putters[p];
    }
    for p in put.members() {
        putters[p] = own;
    }
    from
}

// The mask where the step is marked, else the empty one.
fn only(cloth: bool, m: u64) -> u64
    ensures { result ≡ cond cloth m 0 }
{
    if cloth { m } else { 0 }
}

// An occurrence's own write comes before its read here, so that its own bit is taken off its row. `cut` holds the
// occurrences so far that cut cloth. That the list has at most 64 is a clause, here and above: a struct of one list and
// its bound would be made at each call.
pub fn table_of(occurrences: &[u64]) -> [u64; 64]
    requires { length (steps_in occurrences.now) ≤ 64 }
    ensures { result ≡ table (steps_in occurrences.now) }
{
    let mut rows = [0u64; 64];
    let mut writers = [0u64; 32];
    let mut readers = [0u64; 32];
    let mut putters = [0u64; 64];
    let mut cut = 0u64;
    for (i, s) in flat::steps(occurrences).enumerate() {
        let own = u64::bit(i);
        let users = after_writes(&readers, &mut writers, s.writes, own);
        let sources = after_reads(&writers, &mut readers, s.reads, own);
        let cuts = only(s.cloth, cut);
        cut |= only(s.cloth, own);
        let from = after_takes(&mut putters, s.ins, s.outs, own);
        rows[i] = (users | sources | cuts | from) & (own - 1);
    }
    rows
}
