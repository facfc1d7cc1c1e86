// Emitters of a sheet's lines, each line from its opening bracket to its LF. There is room for them, as for `emit`'s,
// and `out` and `at` are two, as there.
#![tactic(auto)]

ghost use Rattle.std.specs.Prelude.{[], map};
ghost use Rattle.mask.specs.Mask.{members};
ghost use Rattle.emit.specs.Emit.{Room, Emits};
ghost use Rattle.flat.specs.Flat.{steps_in};
ghost use Rattle.layout.specs.Words.{spelling};
ghost use Rattle.layout.specs.Text.{listed, marked, step_line, step_lines, word_line, start_line, done_lines, job_text};
ghost use Rattle.facts.specs.LinesOf.{form_of};
ghost use Rattle.sheet_lines.specs.inner.Parts.{opening, closing, lists, route_text};

use emit::{entries, entry, put};
use layout::Word;
use route::{Places, Step};
use version::Numbers;

// The letters of a word, from the table.
fn word(out: &mut [u8], at: usize, w: Word) -> usize
    requires { Room (spelling w) out.old at }
    ensures { Emits (spelling w) out.old at out.new result }
{
    let words = layout::words::TABLE;
    let n = layout::words::size(&words, w);
    let first = layout::words::place(w) * 6 + 1;
    let last = first + n;
    emit::text(out, at, &words[first..last])
}

// `(` and the word.
fn opened(out: &mut [u8], at: usize, w: Word) -> usize
    requires { Room (opening w) out.old at }
    ensures { Emits (opening w) out.old at out.new result }
{
    let p = put(out, at, b'(');
    word(out, p, w)
}

// `)` and the LF.
fn closed(out: &mut [u8], at: usize) -> usize
    requires { Room closing out.old at }
    ensures { Emits closing out.old at out.new result }
{
    let p = put(out, at, b')');
    put(out, p, b'\n')
}

// A list of places or of variables: the members of a mask.
fn list(out: &mut [u8], at: usize, w: Word, m: u64) -> usize
    requires { Room (listed w (members 64 m) []) out.old at }
    ensures { Emits (listed w (members 64 m) []) out.old at out.new result }
{
    let a = put(out, at, b' ');
    let b = opened(out, a, w);
    let c = entries(out, b, m, 0);
    put(out, c, b')')
}

// The four lists of a step.
fn four(out: &mut [u8], at: usize, s: Step) -> usize
    requires { Room (lists (form_of s) []) out.old at }
    ensures { Emits (lists (form_of s) []) out.old at out.new result }
{
    let a = list(out, at, Word::In, s.ins);
    let b = list(out, a, Word::Out, s.outs);
    let c = list(out, b, Word::Read, s.reads as u64);
    list(out, c, Word::Write, s.writes as u64)
}

// The mark, where the step has it, which is written as a list with no entry; and the end.
fn ended(out: &mut [u8], at: usize, cloth: bool) -> usize
    requires { Room (marked cloth closing) out.old at }
    ensures { Emits (marked cloth closing) out.old at out.new result }
{
    if cloth {
        let p = list(out, at, Word::Cloth, 0);
        return closed(out, p);
    }
    closed(out, at)
}

fn step_line(out: &mut [u8], at: usize, s: Step) -> usize
    requires { Room (step_line (form_of s) []) out.old at }
    ensures { Emits (step_line (form_of s) []) out.old at out.new result }
{
    let a = opened(out, at, Word::Step);
    let b = entry(out, a, s.name as u64);
    let c = four(out, b, s);
    ended(out, c, s.cloth)
}

fn word_line(out: &mut [u8], at: usize, w: Word, n: u64) -> usize
    requires { Room (word_line w n []) out.old at }
    ensures { Emits (word_line w n []) out.old at out.new result }
{
    let a = opened(out, at, w);
    let b = entry(out, a, n);
    closed(out, b)
}

// The start line that follows a head, where the version has it: the members of a mask, which may be all 64 or none.
fn start_line(v: Numbers, out: &mut [u8], at: usize, m: u64) -> usize
    requires { Room (start_line v (members 64 m) []) out.old at }
    ensures { Emits (start_line v (members 64 m) []) out.old at out.new result }
{
    if v.starts {
        let a = opened(out, at, Word::Start);
        let b = entries(out, a, m, 0);
        return closed(out, b);
    }
    at
}

fn step_lines(out: &mut [u8], at: usize, steps: &[u64]) -> usize
    requires { Room (step_lines (map form_of (steps_in steps.now)) []) out.old at }
    ensures { Emits (step_lines (map form_of (steps_in steps.now)) [])
        out.old at out.new result }
{
    let mut p = at;
    for s in flat::steps(steps) {
        p = step_line(out, p, s);
    }
    p
}

// A route's head, its start line and its steps, by a version.
pub fn route_lines(
    v: Numbers,
    out: &mut [u8],
    at: usize,
    w: Word,
    places: Places,
    steps: &[u64],
) -> usize
    requires { Room (route_text v w places (steps_in steps.now) []) out.old at }
    ensures { Emits (route_text v w places (steps_in steps.now) [])
        out.old at out.new result }
{
    let a = word_line(out, at, w, places.count);
    let b = start_line(v, out, a, places.start);
    step_lines(out, b, steps)
}

fn done_lines(out: &mut [u8], at: usize, done: &[u32]) -> usize
    requires { Room (done_lines done.now []) out.old at }
    ensures { Emits (done_lines done.now []) out.old at out.new result }
{
    let mut p = at;
    for name in done {
        p = word_line(out, p, Word::Done, *name as u64);
    }
    p
}

// The job part.
pub fn job_lines(out: &mut [u8], at: usize, done: &[u32]) -> usize
    requires { Room (job_text done.now) out.old at }
    ensures { Emits (job_text done.now) out.old at out.new result }
{
    let a = opened(out, at, Word::Job);
    let b = closed(out, a);
    done_lines(out, b, done)
}
