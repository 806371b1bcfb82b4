// Tapes: what a run reads its numbers from and writes them to.
#![tactic(auto)]

pub mod input;
pub mod output;
pub mod words;
