// Numbers: one digit to as many as the version allows, nothing after a leading 0.
ghost use Rattle.std.specs.Prelude.{◌≤◌, length};
ghost use Rattle.tokens.specs.inner.Tokens.{NumberOn};

use crate::{Broken, Numeral};
use version::Version;

pub fn number(v: Version, s: &[u8], from: usize) -> Result<Numeral, Broken>
    requires { from ≤ length s.now }
    ensures { NumberOn v s.now from result }
{
    let Some(&b) = s.get(from) else {
        return Err(Broken { at: from });
    };
    if !b.is_ascii_digit() {
        return Err(Broken { at: from });
    }
    let mut n = u64::from(b - b'0');
    if b == b'0' {
        return Ok(Numeral {
            at: from + 1,
            value: n,
        });
    }
    // how many digits may follow: of digits, not of places
    let mut left = v.numbers.digits - 1;
    for (i, c) in s[from + 1..].iter().enumerate() {
        if !c.is_ascii_digit() || left == 0 {
            return Ok(Numeral {
                at: from + 1 + i,
                value: n,
            });
        }
        left -= 1;
        n = n * 10 + u64::from(c - b'0');
    }
    Ok(Numeral {
        at: s.len(),
        value: n,
    })
}
