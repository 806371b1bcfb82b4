// Images: code that a machine may run.
#![tactic(auto)]

pub mod admission;
pub mod admitted;
pub mod refusals;
