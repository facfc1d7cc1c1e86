// The job part, lent back.
ghost use Rattle.std.specs.Prelude.{◌≡◌};
ghost use Rattle.facts.specs.JobPart.{job_part, PastLines};

use crate::lists::{Lists, read_lists};

// The offset past the first n lines.
pub fn past_lines(s: &[u8], n: usize) -> usize
    ensures { PastLines n s.now result }
{
    let mut left = n;
    for (i, b) in s.iter().enumerate() {
        if left == 0 {
            return i;
        }
        if *b == b'\n' {
            left -= 1;
        }
    }
    s.len()
}

// From `(job)` to the end; of a refused sheet the empty part at its start.
pub fn job_part(sheet: &[u8]) -> &[u8]
    ensures { result.now ≡ job_part sheet.now }
{
    let mut lists = Lists::EMPTY;
    let Ok(c) = read_lists(sheet, &mut lists) else {
        return &sheet[..0];
    };
    let k = past_lines(sheet, c.old_len + c.new_len + 4);
    &sheet[k..]
}
