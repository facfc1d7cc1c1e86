// The whole listing, and writing it into a lent slice that has room for it. `out` and `at` are two, as in `emit`.
ghost use Rattle.std.specs.Prelude.{◌≡◌, ◌++◌, length, ◌<◌, ◌≤◌};
ghost use Rattle.emit.specs.Emit.{Room, Emits};
ghost use Rattle.listing_lines.specs.Lines.{moved_line, after_lines, order_line, marking_line, value_lines};
ghost use Rattle.out_slice.specs.OutSlice.{wrote_of, wrote_text, out_with};
ghost use Rattle.listing.specs.Listing.{listing};

use answering::Judged;
use listing_lines::{marking_line, moved_line, order_line, refused_line};
use listing_tables::{after_lines, value_lines};
use refusal::Refusal;

// No answer of judge has a longer listing (proofs/Longest.antt).
const ENOUGH: usize = 7053;

fn first_lines(out: &mut [u8], at: usize, a: Judged) -> usize
    requires { Room (moved_line a.kept a.dropped ++ after_lines a.kept a.after) out.old at }
    ensures { Emits (moved_line a.kept a.dropped ++ after_lines a.kept a.after) out.old at
        out.new result }
{
    let rows = a.after;
    let end = moved_line(out, at, a.kept, a.dropped);
    after_lines(out, end, a.kept, &rows)
}

fn last_lines(out: &mut [u8], at: usize, a: Judged) -> usize
    requires { Room (order_line a.len a.order ++ (marking_line a.marking.tokens ++ value_lines a.writers))
        out.old at }
    ensures { Emits
        (order_line a.len a.order ++ (marking_line a.marking.tokens ++ value_lines a.writers))
        out.old at out.new result }
{
    let order = a.order;
    let writers = a.writers;
    let middle = order_line(out, at, a.len, order);
    let end = marking_line(out, middle, a.marking.tokens);
    value_lines(out, end, &writers)
}

fn text(out: &mut [u8], at: usize, a: Judged) -> usize
    requires { Room (listing a) out.old at }
    ensures { Emits (listing a) out.old at out.new result }
{
    if a.number != 0 {
        return refused_line(out, at, a.number, a.second);
    }
    let middle = first_lines(out, at, a);
    last_lines(out, middle, a)
}

pub fn write_listing(a: Judged, out: &mut [u8]) -> Result<usize, Refusal>
    requires { length (listing a) ≤ 7053 }
    ensures value { wrote_of result ≡ wrote_text (listing a) (length out.old) }
    ensures out_after { out.new ≡ out_with (listing a) out.old }
{
    out_slice::write::<ENOUGH, _>(out, |out| text(out, 0, a))
}
