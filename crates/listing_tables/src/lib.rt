// The tables of the listing: a line for each kept occurrence that comes after another, and for each variable that has a
// writer. `out` and `at` are two, as in `emit`.
#![tactic(auto)]

ghost use Rattle.std.specs.Prelude.{◌<◌};
ghost use Rattle.emit.specs.Emit.{Room, Emits};
ghost use Rattle.listing_lines.specs.Lines.{after_line, after_lines, value_line, value_lines};

use emit::{entries, entry, text};
use listing_lines::figure;
use mask::Mask;

// The line of the occurrence at bit i, where its row has a bit.
fn after_line(out: &mut [u8], at: usize, i: u64, row: u64) -> usize
    requires i_bound { i < 64 }
    requires room { Room (after_line i row) out.old at }
    ensures { Emits (after_line i row) out.old at out.new result }
{
    if row == 0 {
        return at;
    }
    let first = figure(out, at, b"(after", i + 1);
    let last = entries(out, first, row, 1);
    text(out, last, b")\n")
}

// From one kept occurrence to the next.
pub fn after_lines(out: &mut [u8], at: usize, kept: u64, rows: &[u64; 64]) -> usize
    requires { Room (after_lines kept rows.now) out.old at }
    ensures { Emits (after_lines kept rows.now) out.old at out.new result }
{
    let mut end = at;
    for i in kept.members() {
        end = after_line(out, end, i as u64, rows[i]);
    }
    end
}

// The line of a variable that has a writer.
fn value_line(out: &mut [u8], at: usize, v: u64, writer: u8) -> usize
    requires { Room (value_line v writer) out.old at }
    ensures { Emits (value_line v writer) out.old at out.new result }
{
    if writer == 0 {
        return at;
    }
    let first = figure(out, at, b"(value", v);
    let last = entry(out, first, writer as u64);
    text(out, last, b")\n")
}

pub fn value_lines(out: &mut [u8], at: usize, writers: &[u8; 32]) -> usize
    requires { Room (value_lines writers.now) out.old at }
    ensures { Emits (value_lines writers.now) out.old at out.new result }
{
    let mut end = at;
    for (v, writer) in writers.iter().enumerate() {
        end = value_line(out, end, v as u64, *writer);
    }
    end
}
