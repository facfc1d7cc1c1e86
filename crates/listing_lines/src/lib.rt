// The lines that a listing has once, and what the lines of its tables begin with. `out` and `at` are two, as in `emit`.
#![tactic(auto)]

ghost use Rattle.std.specs.Prelude.{◌++◌};
ghost use Rattle.emit.specs.Emit.{Room, Emits};
ghost use Rattle.emit.specs.Numbers.{over, entry as entry_text};
ghost use Rattle.listing_lines.specs.Lines.{refused_line, moved_line, order_line, marking_line};

use emit::{entries, entry, text};
use mask::Mask;

// A word and an entry.
pub fn figure(out: &mut [u8], at: usize, w: &[u8], n: u64) -> usize
    requires { Room (w.now ++ entry_text n) out.old at }
    ensures { Emits (w.now ++ entry_text n) out.old at out.new result }
{
    let end = text(out, at, w);
    entry(out, end, n)
}

pub fn refused_line(out: &mut [u8], at: usize, number: u32, second: u64) -> usize
    requires { Room (refused_line number second) out.old at }
    ensures { Emits (refused_line number second) out.old at out.new result }
{
    let first = figure(out, at, b"(refused", number as u64);
    let last = entry(out, first, second);
    text(out, last, b")\n")
}

pub fn moved_line(out: &mut [u8], at: usize, kept: u64, dropped: u32) -> usize
    requires { Room (moved_line kept dropped) out.old at }
    ensures { Emits (moved_line kept dropped) out.old at out.new result }
{
    let n = kept.count();
    let middle = figure(out, at, b"(moved (kept", n as u64);
    let last = figure(out, middle, b") (dropped", dropped as u64);
    text(out, last, b"))\n")
}

// The entries of a list.
fn list_entries(out: &mut [u8], at: usize, l: &[u8]) -> usize
    requires { Room (over entry_text l.now) out.old at }
    ensures { Emits (over entry_text l.now) out.old at out.new result }
{
    let mut end = at;
    for n in l {
        end = entry(out, end, *n as u64);
    }
    end
}

// The length is that which the answer says, and may be more than the entries.
pub fn order_line(out: &mut [u8], at: usize, len: u32, order: [u8; 64]) -> usize
    requires { Room (order_line len order) out.old at }
    ensures { Emits (order_line len order) out.old at out.new result }
{
    let n = (len as usize).min(64);
    let first = text(out, at, b"(order");
    let last = list_entries(out, first, &order[..n]);
    text(out, last, b")\n")
}

pub fn marking_line(out: &mut [u8], at: usize, m: u64) -> usize
    requires { Room (marking_line m) out.old at }
    ensures { Emits (marking_line m) out.old at out.new result }
{
    let first = text(out, at, b"(marking");
    let last = entries(out, first, m, 0);
    text(out, last, b")\n")
}
