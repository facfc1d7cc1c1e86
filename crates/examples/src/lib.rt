// 01's examples A to L, proved about the definitions of the crates below. No code.
#![tactic(auto)]
