// Try: an order that somebody hands in.
#![tactic(auto)]

pub mod trying;
