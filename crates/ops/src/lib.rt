// The operations on a sheet's bytes: print, and try as a host calls it.
#![tactic(auto)]

pub mod print;
pub mod tries;
