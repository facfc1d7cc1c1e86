// The one table of the eleven words.
ghost use Rattle.std.specs.Prelude.{◌≡◌, length};
ghost use Rattle.layout.specs.Words.{word_table, spelling, number_of};

use crate::Word;

// Six bytes for each word: its length, and its letters filled up with 0. Bytes, not slices: the fixed texts of `tokens`
// are made of them, so that a word's letters are said once.
pub const TABLE: [u8; 66] = [
    3, 111, 108, 100, 0, 0, // old
    3, 110, 101, 119, 0, 0, // new
    3, 106, 111, 98, 0, 0, // job
    4, 100, 111, 110, 101, 0, // done
    4, 115, 116, 101, 112, 0, // step
    2, 105, 110, 0, 0, 0, // in
    3, 111, 117, 116, 0, 0, // out
    4, 114, 101, 97, 100, 0, // read
    5, 119, 114, 105, 116, 101, // write
    5, 99, 108, 111, 116, 104, // cloth
    5, 115, 116, 97, 114, 116, // start
];

// The row of a word.
#[tactic(auto, unfolding(crate::specs::Words::number_of))]
pub fn place(w: Word) -> usize
    ensures { result ≡ number_of w }
{
    w as usize
}

pub fn size(table: &[u8], w: Word) -> usize
    requires { table.now ≡ word_table }
    ensures { result ≡ length (spelling w) }
{
    let n = place(w);
    table[n * 6] as usize
}
