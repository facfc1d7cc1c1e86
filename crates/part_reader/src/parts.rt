// The parts of a sheet in turn: a head with its start line, the steps below it, the done lines. Each ends where the
// layout breaks. Version, bytes and where reading stands are three, as in `tokens`.
ghost use Rattle.std.specs.Prelude.{◌≡◌, ◌≤◌, replicate};
ghost use Rattle.refusal.specs.Refusal.{outcome_of};
ghost use Rattle.flat.specs.Flat.{steps_in};
ghost use Rattle.part_reader.specs.inner.Prefix.{Placed, StartLineOn, OldOn, NewLineOn, NewOn, JobOn, StepsOn, DonesOn};

use crate::{Filled, Head, Pass};
use line_reader::reading::{numbered, start, step, stepping};
use line_reader::rows::{done_row, head_row, job_row, new_row, start_row, step_of, step_row};
use route::Places;
use route::steps::low;
use tokens::texts::text;
use tokens::{Broken, texts};
use version::Version;

// Past a head's line, with the count that it gave: its start line, where the version has one.
fn start_line(v: Version, s: &[u8], p: Pass, count: u64) -> Result<Head, Broken>
    requires placed { Placed s.now p }
    requires count_bound { (outcome_of p.rows).number ≡ 0 → count ≤ 64 }
    ensures { StartLineOn v s.now p count result }
{
    if !v.numbers.starts {
        return Ok(Head {
            pass: p,
            places: Places { count, start: 0 },
        });
    }
    let l = start(v, s, p.at)?;
    let lines = p.lines + 1;
    let mut rows = p.rows;
    if rows.is_ok() {
        rows = start_row(count, l.entries, lines);
    }
    Ok(Head {
        pass: Pass {
            at: l.at,
            lines,
            rows,
        },
        places: Places {
            count,
            start: l.entries.mask,
        },
    })
}

pub fn old_head(v: Version, s: &[u8]) -> Result<Head, Broken>
    ensures { OldOn v s.now result }
{
    let w = texts::OLD;
    let n = numbered(v, s, 0, &w)?;
    let rows = head_row(n.value, 1);
    let p = Pass {
        at: n.at,
        lines: 1,
        rows,
    };
    start_line(v, s, p, n.value)
}

// The new route's head without its start line.
fn new_line(v: Version, s: &[u8], p: Pass, above: usize) -> Result<Head, Broken>
    requires { Placed s.now p }
    ensures { NewLineOn v s.now p above result }
{
    let w = texts::NEW;
    let n = numbered(v, s, p.at, &w)?;
    let lines = p.lines + 1;
    let mut rows = p.rows;
    if rows.is_ok() {
        rows = new_row(above, n.value, lines);
    }
    Ok(Head {
        pass: Pass {
            at: n.at,
            lines,
            rows,
        },
        places: Places {
            count: n.value,
            start: 0,
        },
    })
}

// `above` is how many steps the old route has.
pub fn new_head(v: Version, s: &[u8], p: Pass, above: usize) -> Result<Head, Broken>
    requires { Placed s.now p }
    ensures { NewOn v s.now p above result }
{
    let h = new_line(v, s, p, above)?;
    start_line(v, s, h.pass, h.places.count)
}

// `above` is how many steps the new route has.
pub fn job_head(s: &[u8], p: Pass, above: usize) -> Result<Pass, Broken>
    requires { Placed s.now p }
    ensures { JobOn s.now p above result }
{
    let w = texts::JOB;
    let at = text(s, p.at, &w)?;
    let lines = p.lines + 1;
    let mut rows = p.rows;
    if rows.is_ok() {
        rows = job_row(above, lines);
    }
    Ok(Pass { at, lines, rows })
}

// The steps below a head, put away in place.
pub fn steps(
    v: Version,
    s: &[u8],
    p: Pass,
    places: Places,
    list: &mut [u64],
) -> Result<Filled, Broken>
    requires placed { Placed s.now p }
    requires count_bound { (outcome_of p.rows).number ≡ 0 → places.count ≤ 64 }
    requires list_value { list.old ≡ replicate 256 0 }
    ensures { StepsOn v s.now p places result (steps_in list.new) }
{
    let mut hint = [0u8; 256];
    let mut rows = p.rows;
    let mut lines = p.lines;
    let mut at = p.at;
    let mut len = 0;
    // a turn passes a whole line, here and below
    while stepping(s, at) {
        let l = step(v, s, at)?;
        at = l.at;
        lines += 1;
        if rows.is_err() {
            continue;
        }
        let end = 4 * len;
        rows = step_row(v, &hint, &list[..end], places.count, l, lines);
        if rows.is_err() {
            continue;
        }
        let one = step_of(l);
        flat::put(list, len, one);
        name_set::add(&mut hint, one.name, len);
        len += 1;
    }
    Ok(Filled {
        pass: Pass { at, lines, rows },
        len,
    })
}

// The done lines to the end of the bytes.
pub fn dones(v: Version, s: &[u8], p: Pass, list: &mut [u32; 64]) -> Result<Filled, Broken>
    requires { Placed s.now p }
    ensures { DonesOn v s.now p result list.old list.new }
{
    let numbers = v.numbers;
    let w = texts::DONE;
    let mut rows = p.rows;
    let mut lines = p.lines;
    let mut at = p.at;
    let mut len = 0;
    while at < s.len() {
        let n = numbered(v, s, at, &w)?;
        at = n.at;
        lines += 1;
        if rows.is_err() {
            continue;
        }
        rows = done_row(numbers, len, n.value, lines);
        if rows.is_err() {
            continue;
        }
        list[len] = low(n.value);
        len += 1;
    }
    Ok(Filled {
        pass: Pass { at, lines, rows },
        len,
    })
}
