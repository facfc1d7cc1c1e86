// time_shelf: rounds of one operation, for the benchmark to time. Standard input has at most eight pairs of numbers: a
// kind, and how many rounds of it. For each pair standard output has a line, the sum of what its rounds answered.
//
//     0   nothing but the loop and its done list
//     1   judge in the usual job, its routes by value
//     2   judge in the same job from a full shelf, from the first edition to the last
//     3   put of the eighth edition, the usual job's new route
//     4   put on the same shelf, refused by 20
//     5   judge from the full shelf, refused by 19; and so each number above 5
#![tactic(auto)]

use drive_script::numbers::Numbers;
use rounds::Kind;
use std::io;

mod rounds;
mod usual;

// A kind, and how many rounds of it.
fn pair(numbers: &mut Numbers<'_>) -> Option<(Kind, u64)> {
    Some((Kind::from(numbers.next()?), numbers.next()?))
}

// A line for each pair.
fn print_all(rt: &impl Print, text: &[u8]) -> io::Result<()> {
    let mut numbers = Numbers::of(text);
    for _ in 0..8 {
        let Some((kind, n)) = pair(&mut numbers) else {
            break;
        };
        println!(rt; "{}", kind.sum(n))?;
    }
    Ok(())
}

fn main(rt: HostRuntime) -> io::Result<()> {
    let mut text = [0u8; 4096];
    let n = input::read_full(&mut rt.stdin(), &mut text)?;
    print_all(&rt, &text[..n])
}
