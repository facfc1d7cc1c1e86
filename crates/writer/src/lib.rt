// Writing: the sheet that a job's records give, into a lent slice.
#![tactic(auto)]

pub mod writes;
