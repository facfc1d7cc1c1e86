// Sheets between editions: from 01's layout to the present one, writing out the implied start, and back.
#![tactic(auto)]

pub mod down;
pub mod either;
mod nets;
pub mod up;
