// The lines, each made of its tokens. Version, bytes and place stay apart, as in `tokens`.
ghost use Rattle.std.specs.Prelude.{◌≡◌, ◌&&◌, ◌+◌, ◌≤◌, eqb, length, get_or};
ghost use Rattle.line_reader.specs.inner.Lines.{NumberedOn, ListedOn, StartOn, EndingOn, StepOn};

use crate::{Ending, StepLine};
use tokens::lists::list;
use tokens::numbers::number;
use tokens::texts::text;
use tokens::{Broken, Listed, Numeral, texts};
use version::Version;

// A line of one word and one number: its first text, the number, and the end.
pub fn numbered(v: Version, s: &[u8], from: usize, w: &[u8]) -> Result<Numeral, Broken>
    requires { from ≤ length s.now }
    ensures { NumberedOn v s.now from w.now result }
{
    let end = texts::END;
    let a = text(s, from, w)?;
    let n = number(v, s, a)?;
    let at = text(s, n.at, &end)?;
    Ok(Numeral { at, value: n.value })
}

// The letter past a line's bracket is that of a step.
pub fn stepping(s: &[u8], from: usize) -> bool
    requires { from ≤ length s.now }
    ensures { result ≡ eqb (get_or s.now (from + 1) 0) 115 }
{
    s.get(from + 1) == Some(&b's')
}

// Past the last list: a space, which only the mark begins with, in a version that has it.
fn marked(v: Version, s: &[u8], at: usize) -> bool
    ensures { result ≡ (eqb (get_or s.now at 0) 32 && v.cloth) }
{
    s.get(at) == Some(&b' ') && v.numbers.cloth
}

// Past the last list: the mark, where it stands, and the end.
// Inlined, as the texts in it are.
#[inline]
fn line_end(v: Version, s: &[u8], from: usize) -> Result<Ending, Broken>
    requires { from ≤ length s.now }
    ensures { EndingOn v s.now from result }
{
    let end = texts::END;
    if marked(v, s, from) {
        let cloth = texts::CLOTH;
        let m = text(s, from, &cloth)?;
        let at = text(s, m, &end)?;
        return Ok(Ending { at, cloth: true });
    }
    let at = text(s, from, &end)?;
    Ok(Ending { at, cloth: false })
}

// A list: its text, and its entries. Inlined, as both are.
#[inline(always)]
fn listed(v: Version, s: &[u8], from: usize, w: &[u8]) -> Result<Listed, Broken>
    requires { from ≤ length s.now }
    ensures { ListedOn v s.now from w.now result }
{
    let at = text(s, from, w)?;
    list(v, s, at)
}

// A start line: its list, and the LF.
pub fn start(v: Version, s: &[u8], from: usize) -> Result<Listed, Broken>
    requires { from ≤ length s.now }
    ensures { StartOn v s.now from result }
{
    let word = texts::START;
    let lf = texts::LF;
    let l = listed(v, s, from, &word)?;
    let at = text(s, l.at, &lf)?;
    Ok(Listed {
        at,
        entries: l.entries,
    })
}

pub fn step(v: Version, s: &[u8], from: usize) -> Result<StepLine, Broken>
    requires { from ≤ length s.now }
    ensures { StepOn v s.now from result }
{
    let step = texts::STEP;
    let inn = texts::IN;
    let out = texts::OUT;
    let read = texts::READ;
    let write = texts::WRITE;
    let a = text(s, from, &step)?;
    let n = number(v, s, a)?;
    let i = listed(v, s, n.at, &inn)?;
    let o = listed(v, s, i.at, &out)?;
    let r = listed(v, s, o.at, &read)?;
    let w = listed(v, s, r.at, &write)?;
    let e = line_end(v, s, w.at)?;
    Ok(StepLine {
        at: e.at,
        name: n.value,
        ins: i.entries,
        outs: o.entries,
        reads: r.entries,
        writes: w.entries,
        cloth: e.cloth,
    })
}
