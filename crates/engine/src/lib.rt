// The engine for a host in C: plain numbers and byte slices. include/reroute.h says it in C's words.
#![tactic(auto)]

pub mod convert;
pub mod host;
