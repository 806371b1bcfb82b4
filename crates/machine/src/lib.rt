// The AM machine: a run over an admitted image, an arithmetic unit and two tapes.
#![tactic(auto)]

pub mod calls;
mod cell;
mod division;
pub mod fault;
pub mod finish;
pub mod finished;
mod instructions;
pub mod look;
pub mod run;
mod stack;
pub mod status;
mod step;
