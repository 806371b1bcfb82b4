// Layers: output tapes over any other output tape.
#![tactic(auto)]

pub mod holder;
pub mod quota;
mod send;
