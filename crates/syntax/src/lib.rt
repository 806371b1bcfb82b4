// The words of C0 that every stage of the translator speaks: tokens and syntax trees.
#![tactic(auto)]

pub mod token;
pub mod tree;
