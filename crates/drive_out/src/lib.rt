// What an operation answers, as the text of its numbers: a line of the output. (As numbers the longest answers would
// take half a mebibyte.)
#![tactic(auto)]

use itoa::Buffer;
use std::alloc::{AllocError, Global};
use std::fmt;

// The numbers with a space between.
#[derive(Drop)]
pub struct Answer {
    text: String,
}

impl Answer {
    pub fn new(alloc: Global) -> Answer {
        Answer {
            text: String::new(alloc),
        }
    }

    pub fn number(&mut self, number: u64) -> Result<(), AllocError> {
        if !self.text.is_empty() {
            self.text.push(' ')?;
        }
        let mut digits = Buffer::new();
        self.text.push_str(digits.format(number))
    }

    pub fn list<T: Copy + Into<u64>>(&mut self, list: &[T]) -> Result<(), AllocError> {
        for x in list {
            self.number((*x).into())?;
        }
        Ok(())
    }

    // A lent slice afterwards: its length, then runs of the same number, each a count and the number.
    pub fn runs<T: Copy + Into<u64> + PartialEq>(&mut self, list: &[T]) -> Result<(), AllocError> {
        self.number(list.len() as u64)?;
        for run in list.chunk_by(|a, b| a == b) {
            if let [first, ..] = run {
                self.number(run.len() as u64)?;
                self.number((*first).into())?;
            }
        }
        Ok(())
    }
}

impl fmt::Display for Answer {
    fn fmt<W: fmt::Write>(&self, f: &mut fmt::Formatter<W>) -> fmt::Result {
        f.write_str(&self.text)
    }
}
