// The fixed texts of the lines. Their letters stand in the one table of words.
ghost use Rattle.std.specs.Prelude.{◌≡◌, ◌+◌, ◌≤◌, length};
ghost use Rattle.tokens.specs.inner.Tokens.{four, Agreeing, TextOn};

use crate::Broken;
use layout::words::TABLE;

pub const OLD: [u8; 5] = [b'(', TABLE[1], TABLE[2], TABLE[3], b' '];

pub const NEW: [u8; 5] = [b'(', TABLE[7], TABLE[8], TABLE[9], b' '];

pub const JOB: [u8; 6] = [b'(', TABLE[13], TABLE[14], TABLE[15], b')', b'\n'];

pub const DONE: [u8; 6] = [b'(', TABLE[19], TABLE[20], TABLE[21], TABLE[22], b' '];

pub const STEP: [u8; 6] = [b'(', TABLE[25], TABLE[26], TABLE[27], TABLE[28], b' '];

pub const IN: [u8; 4] = [b' ', b'(', TABLE[31], TABLE[32]];

pub const OUT: [u8; 5] = [b' ', b'(', TABLE[37], TABLE[38], TABLE[39]];

pub const READ: [u8; 6] = [b' ', b'(', TABLE[43], TABLE[44], TABLE[45], TABLE[46]];

pub const WRITE: [u8; 7] = [
    b' ', b'(', TABLE[49], TABLE[50], TABLE[51], TABLE[52], TABLE[53],
];

pub const CLOTH: [u8; 8] = [
    b' ', b'(', TABLE[55], TABLE[56], TABLE[57], TABLE[58], TABLE[59], b')',
];

pub const START: [u8; 6] = [b'(', TABLE[61], TABLE[62], TABLE[63], TABLE[64], TABLE[65]];

pub const END: [u8; 2] = [b')', b'\n'];

pub const LF: [u8; 1] = [b'\n'];

// Byte by byte, as long as they agree.
fn agreeing(s: &[u8], from: usize, w: &[u8]) -> Result<usize, Broken>
    requires { from ≤ length s.now }
    ensures { TextOn s.now from w.now result }
{
    for (i, b) in w.iter().enumerate() {
        if s.len() - from <= i || s[from + i] != *b {
            return Err(Broken { at: from + i });
        }
    }
    Ok(from + w.len())
}

// Four bytes as one number, the first lowest.
fn four(s: &[u8], at: usize) -> u32
    requires { at + 4 ≤ length s.now }
    ensures { result ≡ four s.now at }
{
    u32::from_le_bytes([s[at], s[at + 1], s[at + 2], s[at + 3]])
}

// A text of four to eight bytes stands there, by its first four and its last four: a sheet of 893 bytes is read in
// 14,675 instructions, and in 15,351 by `starts_with`, which goes byte by byte.
fn stands(s: &[u8], from: usize, w: &[u8]) -> bool
    requires { from ≤ length s.now }
    ensures { Agreeing s.now from w.now result }
{
    let n = w.len();
    4 <= n
        && n <= 8
        && n <= s.len() - from
        && four(s, from) == four(w, 0)
        && four(s, from + n - 4) == four(w, n - 4)
}

// Inlined: where the text is known, it is compared as two numbers.
#[inline(always)]
pub fn text(s: &[u8], from: usize, w: &[u8]) -> Result<usize, Broken>
    requires { from ≤ length s.now }
    ensures { TextOn s.now from w.now result }
{
    if stands(s, from, w) {
        return Ok(from + w.len());
    }
    agreeing(s, from, w)
}
