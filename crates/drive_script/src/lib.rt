// A script of operations: its numbers, taken one after another, and the operations by their numbers.
#![tactic(auto)]

pub mod numbers;
pub mod operations;
