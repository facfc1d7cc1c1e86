// Lists: a space and a number for each entry, and the bracket that ends the list.
ghost use Rattle.std.specs.Prelude.{◌≤◌, length};
ghost use Rattle.tokens.specs.inner.Tokens.{ListOn};

use crate::numbers::number;
use crate::{Broken, Entries, Listed};
use mask::Mask;
use version::Version;

// Inlined: a step's line reads faster so.
#[inline(always)]
pub fn list(v: Version, s: &[u8], from: usize) -> Result<Listed, Broken>
    requires { from ≤ length s.now }
    ensures { ListOn v s.now from result }
{
    let mut mask = 0u64;
    let mut top = 0u64;
    let mut count = 0u64;
    let mut falls = false;
    let mut i = from;
    // a turn passes a whole entry, so no `for` counts the bytes
    while i < s.len() {
        let b = s[i];
        if b == b')' {
            return Ok(Listed {
                at: i + 1,
                entries: Entries {
                    mask,
                    top,
                    count,
                    falls,
                },
            });
        }
        if b != b' ' {
            return Err(Broken { at: i });
        }
        let n = number(v, s, i + 1)?;
        i = n.at;
        let e = n.value;
        mask |= u64::bit((e % 64) as usize);
        count += 1;
        if e < top {
            falls = true;
            continue;
        }
        top = e + 1;
    }
    Err(Broken { at: i })
}
