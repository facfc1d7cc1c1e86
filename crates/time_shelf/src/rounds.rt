// Rounds of each kind, and the sum of what they answer. The done list, or the number to put, differs from round to
// round, so that one call can't stand for all.
use crate::usual;
use answering::Moved;
use job::laying::RouteJob;
use refusal::{Outcome, Refusal};
use shelf::Shelf;

#[derive(Clone, Copy)]
pub enum Kind {
    Nothing,
    JudgeRoutes,
    JudgeBetween,
    Put,
    PutRefused,
    JudgeRefused,
}

impl From<u64> for Kind {
    fn from(number: u64) -> Kind {
        match number {
            0 => Kind::Nothing,
            1 => Kind::JudgeRoutes,
            2 => Kind::JudgeBetween,
            3 => Kind::Put,
            4 => Kind::PutRefused,
            5.. => Kind::JudgeRefused,
        }
    }
}

impl Kind {
    // So many rounds.
    pub fn sum(self, n: u64) -> u64 {
        match self {
            Kind::Nothing => rounds(n, (), |(), round| u64::from(usual::done(round)[9])),
            Kind::JudgeRoutes => judge_routes(n),
            Kind::JudgeBetween => judge_between(n, 80),
            Kind::Put => put(n, 80),
            Kind::PutRefused => put(n, 60),
            Kind::JudgeRefused => judge_between(n, 90),
        }
    }
}

// The sum of what n rounds answer. What they share is handed to each by value: a closure that holds it copies it once
// more in each round.
fn rounds<C: Copy, F: FnMut(C, u64) -> u64>(n: u64, shared: C, mut round: F) -> u64
    requires { F.IsAlwaysCallable round }
{
    let mut sum = 0u64;
    for i in 1..=n {
        sum = sum.wrapping_add(round(shared, i));
    }
    sum
}

fn total(numbers: &[u64]) -> u64 {
    numbers.iter().fold(0, |sum, x| sum.wrapping_add(*x))
}

// What a judged job adds to the sum.
fn judged(r: &Result<Moved, Refusal>) -> u64 {
    match r {
        Ok(m) => moved(m),
        Err(e) => u64::from(e.row.number()),
    }
}

fn moved(r: &Moved) -> u64 {
    total(&[
        r.kept,
        r.after[9],
        u64::from(r.order[8]),
        r.marking.tokens,
        u64::from(r.writers[8]),
    ])
}

// What a put adds to the sum.
fn stored(o: Outcome, shelf: &Shelf) -> u64 {
    let edition = &shelf.editions[7];
    total(&[u64::from(o.number), o.second, u64::from(edition.number)])
}

fn judge_routes(n: u64) -> u64 {
    let mut work = [0u8; 8192];
    let old = usual::old();
    let new = usual::new();
    rounds(n, (&old, &new), |(old, new), round| {
        let done = &usual::done(round);
        judged(&judging::judging::judge(&RouteJob { old, new, done }, &mut work))
    })
}

// From the first edition to this one.
fn judge_between(n: u64, target: u32) -> u64 {
    let mut work = [0u8; 8192];
    let full = usual::full();
    rounds(n, &full, |shelf, round| {
        let done = usual::done(round);
        judged(&shelf::between::judge(shelf, 10, target, &done, &mut work))
    })
}

// The eighth edition's number is this one, or one of the seven after it; 70 is stored before. Each round puts on a
// copy.
fn put(n: u64, number: u32) -> u64 {
    let new = usual::new();
    let seven = usual::seven();
    rounds(n, (&seven, &new), |(seven, new), round| {
        let mut shelf = *seven;
        let near = number.wrapping_add((round % 8) as u32);
        let o = Outcome::from(shelf::storing::put(&mut shelf, near, new));
        stored(o, &shelf)
    })
}
