// drive: a script of operations on standard input, and on standard output what each answers: a line for each, up to the
// first that isn't whole. A script is numbers in base ten with spaces or LFs between, for each operation its own number
// and its arguments. A record is its name, in-places, out-places, reads, writes and mark, 1 or 0; a route's place count
// has the mask of its start places behind it. The program takes the first 65,536 bytes and reads no further.
//
//     1                  fire: tokens and a record
//     2, 3, 4, 5, 8      run, slice, try, judge and write over two routes by value and a done list; then the order, the
//                        work or the out slice
//     6, 7, 9, 10        read, the job part, print and try over a sheet; then both slices, or the order
//     23                 as 6, by 01's version
//     12, 13, 14, 15, 18 as 2 to 5 and 8, over lent lists
//     16                 read into lent lists of three lengths
//     20, 21, 22         over the shelf in hand, the empty one at first: a whole shelf handed in; put, a number and a
//                        route; judge, the edition, the target, a done list and the work slice
//     24                 look-up: names, the beginning and a name; it answers its place from 1 or 0, how many names
//                        were compared, and the next beginning
//     25                 as 2, and how many names the run and the match compared
//     26, 27, 28         a sheet up to the present version, down to 01's, and the way that its second line tells; then
//                        the out slice
//
// An answer is all its numbers, and every slice that was lent as it then stands; 20 and 21 show the shelf too. The
// second program says the same of scripts (reference/src/script.rs).
#![tactic(auto)]

use drive_load::Script;
use drive_load::stop::Stop;
use drive_out::Answer;
use shelf::Shelf;
use std::alloc::Global;
use std::io;
use std::io::{BufWriter, Write};

mod operations;

// Each operation in turn. One takes at least a byte, so there are no more operations than bytes.
fn answer_all(rt: &impl Print, alloc: Global, text: &[u8]) -> io::Result<()> {
    let mut script = Script::new(alloc, text);
    let mut shelf = Shelf::empty();
    let mut out = BufWriter::new(alloc, io::writer(rt))?;
    for _ in text {
        let mut answer = Answer::new(alloc);
        match operations::answer(&mut script, &mut shelf, &mut answer) {
            Ok(()) => writeln!(out, "{answer}")?,
            Err(Stop::NotWhole) => break,
            Err(Stop::OutOfMemory) => return Err(io::ErrorKind::OutOfMemory.into()),
        }
    }
    out.flush()
}

fn main(rt: HostRuntime) -> io::Result<()> {
    let mut text = [0u8; 65536];
    let n = input::read_full(&mut rt.stdin(), &mut text)?;
    answer_all(&rt, rt.alloc(), &text[..n])
}
