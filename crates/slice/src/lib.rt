// The slice: which occurrences are kept.
#![tactic(auto)]

pub mod sweeping;
pub mod variables;
