// Judge: the straight list, or the first fit list of the kept, and what the listing shows of it.

#![tactic(auto)]

pub mod judging;
