// Tapes over text, one number to a line.
#![tactic(auto)]

pub mod input;
pub mod output;
pub mod refusals;
