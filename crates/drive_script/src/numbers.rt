// The numbers of a script: base ten, with spaces or LFs between.

// The numbers not yet taken.
#[derive(Drop)]
pub struct Numbers<'a> {
    text: &'a [u8],
}

fn stands_between(b: u8) -> bool {
    b == b' ' || b == b'\n'
}

// The number with one digit more, where the byte is a digit and the number stays below 2^64.
fn longer(number: u64, b: u8) -> Option<u64> {
    if !b.is_ascii_digit() {
        return None;
    }
    number.checked_mul(10)?.checked_add(u64::from(b - b'0'))
}

impl<'a> Numbers<'a> {
    pub fn of(text: &'a [u8]) -> Numbers<'a> {
        Numbers { text }
    }

    // The next word; none at the end of the text.
    fn word(&mut self) -> Option<&'a [u8]> {
        let text = self.text;
        let begin = text.iter().position(|b| !stands_between(*b))?;
        let rest = &text[begin..];
        let end = rest.iter().position(|b| stands_between(*b));
        let (word, left) = rest.split_at(end.unwrap_or(rest.len()));
        self.text = left;
        Some(word)
    }
}

impl Iterator for Numbers<'_> {
    type Item = u64;

    // The next number; none at the end of the text, or at a word that is none.
    fn next(&mut self) -> Option<u64> {
        let word = self.word()?;
        word.iter().try_fold(0, |number, b| longer(number, *b))
    }
}
