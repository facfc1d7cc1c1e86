// The out slice: a whole text is written into it, or 15 with the bytes needed and no byte of it changed.
#![tactic(auto)]

ghost use Rattle.std.specs.Prelude.{◌≡◌, List, ℕ, ◌^◌, ◌<◌, ◌≤◌, length};
ghost use Rattle.emit.specs.Emit.{Emits};
ghost use Rattle.out_slice.specs.OutSlice.{wrote_of, wrote_text, out_with};

use refusal::{Refusal, Row};

// What a write answers in plain numbers, as 01 says it and C stores it: 0, 0 and the bytes written; or a refusal's two,
// and nothing written.
#[derive(Clone, Copy)]
pub struct Wrote {
    pub number: u32,
    pub second: u64,
    pub written: u64,
}

impl From<Result<usize, Refusal>> for Wrote {
    ghost from_gives = { λ r a. a ≡ wrote_of r };

    fn from(r: Result<usize, Refusal>) -> Wrote {
        match r {
            Ok(bytes) => Wrote {
                number: 0,
                second: 0,
                written: bytes as u64,
            },
            Err(e) => Wrote {
                number: e.row.number(),
                second: e.second,
                written: 0,
            },
        }
    }
}

// A text that was written apart is copied, if it fits; the answer is the bytes written.
pub fn copy(text: &[u8], out: &mut [u8]) -> Result<usize, Refusal>
    ensures value { wrote_of result ≡ wrote_text text.now (length out.old) }
    ensures out_after { out.new ≡ out_with text.now out.old }
{
    let n = text.len();
    if out.len() < n {
        return Err(Row::ShortSlice.at(n as u64));
    }
    out[..n].copy_from_slice(text);
    Ok(n)
}

// Where the slice may be too short for N bytes, the text is written apart and copied if it fits.
fn write_apart<const N: usize, F: FnOnce(&mut [u8]) -> usize>(
    out: &mut [u8],
    f: F,
) -> Result<usize, Refusal>
    requires size { N < 2 ^ 63 }
    requires ready { (x : _) → N ≤ length x.now → F.pre f x }
    requires inside { (x : _) (n : _) (y : _) → N ≤ length x.now → F.post f x n y → n ≤ length y.now }
    ensures { (t : List ℕ) → length t ≤ N →
        ((x : _) (n : _) (y : _) → F.post f x n y → Emits t x.now 0 y.now n) →
        (wrote_of result ≡ wrote_text t (length out.old)) × (out.new ≡ out_with t out.old) }
{
    let mut apart = [0u8; N];
    let end = f(&mut apart);
    copy(&apart[..end], out)
}

// A text of at most N bytes, which `f` writes from a slice's start and gives the end of.
pub fn write<const N: usize, F: FnOnce(&mut [u8]) -> usize>(
    out: &mut [u8],
    f: F,
) -> Result<usize, Refusal>
    requires size { N < 2 ^ 63 }
    requires ready { (x : _) → N ≤ length x.now → F.pre f x }
    requires inside { (x : _) (n : _) (y : _) → N ≤ length x.now → F.post f x n y → n ≤ length y.now }
    ensures { (t : List ℕ) → length t ≤ N →
        ((x : _) (n : _) (y : _) → F.post f x n y → Emits t x.now 0 y.now n) →
        (wrote_of result ≡ wrote_text t (length out.old)) × (out.new ≡ out_with t out.old) }
{
    if out.len() < N {
        return write_apart::<N, F>(out, f);
    }
    let end = f(out);
    Ok(end)
}
