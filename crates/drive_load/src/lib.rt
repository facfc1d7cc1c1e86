// The arguments of an operation, taken from the script one after another. Where from and where to, script and answer,
// are two: a struct of both would be made to be taken apart.
#![tactic(auto)]

ghost use Rattle.std.specs.Prelude.{◌≡◌, ◌≤◌, length, take, IfOk};

pub mod arguments;
pub mod stop;

use arguments::Argument;
use drive_script::numbers::Numbers;
use drive_script::operations::Operation;
use route::Route;
use std::alloc::Global;
use stop::Stop;

// The most records or names in a lent list.
pub const LENT: usize = 100;

// The most bytes in a lent slice.
const SLICE: usize = 21000;

// The numbers of a script not yet taken, and memory for the lists in it.
#[derive(Drop)]
pub struct Script<'a> {
    pub alloc: Global,
    numbers: Numbers<'a>,
}

impl<'a> Script<'a> {
    pub fn new(alloc: Global, text: &'a [u8]) -> Script<'a> {
        Script {
            alloc,
            numbers: Numbers::of(text),
        }
    }
}

impl Script<'_> {
    pub fn operation(&mut self) -> Result<Operation, Stop> {
        let number = u64::take(self)?;
        Ok(Operation::try_from(number)?)
    }

    // A number, at most so much.
    pub fn most(&mut self, bound: u64) -> Result<u64, Stop>
        ensures { IfOk result (λ n. n ≤ bound) }
    {
        let number = u64::take(self)?;
        if number <= bound {
            Ok(number)
        } else {
            Err(Stop::NotWhole)
        }
    }

    // A count of at most so much.
    pub fn count(&mut self, bound: usize) -> Result<usize, Stop>
        ensures { IfOk result (λ n. n ≤ bound) }
    {
        Ok(self.most(bound as u64)? as usize)
    }

    // A count of at most so much, and so many entries.
    pub fn list<T: Argument>(&mut self, bound: usize) -> Result<Vec<T>, Stop>
        ensures { IfOk result (λ l. length l.items ≤ bound) }
    {
        let mut list = Vec::new(self.alloc);
        for _ in 0..self.count(bound)? {
            list.push(T::take(self)?)?;
        }
        Ok(list)
    }

    pub fn names(&mut self) -> Result<Vec<u32>, Stop>
        ensures { IfOk result (λ l. length l.items ≤ 100) }
    {
        self.list(LENT)
    }

    pub fn bytes(&mut self) -> Result<Vec<u8>, Stop>
        ensures { IfOk result (λ l. length l.items ≤ 21000) }
    {
        self.list(SLICE)
    }

    // The length of a slice, and the byte that it is full of.
    pub fn fill(&mut self) -> Result<Vec<u8>, Stop>
        ensures { IfOk result (λ l. length l.items ≤ 21000) }
    {
        let length = self.count(SLICE)?;
        let byte = u8::take(self)?;
        Ok(vec![in self.alloc; byte; length]?)
    }
}

// Both routes by value and the first `len` of the done names.
#[derive(Clone, Copy)]
pub struct Routes {
    pub old: Route,
    pub new: Route,
    pub len: usize,
    pub done: [u32; LENT],
}

impl Routes {
    // The first `len` names, or all where `len` is more.
    pub fn done_names(&self) -> &[u32]
        ensures { result.now ≡ take self.now.len self.now.done }
    {
        &self.done[..self.len.min(LENT)]
    }
}
