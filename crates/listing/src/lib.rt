// The listing: the text of judge's answer, written into a lent slice.
#![tactic(auto)]

pub mod printing;
