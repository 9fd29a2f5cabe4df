// The rules of prediction: from the values that one pel reads to what follows.
#![tactic(auto)]

pub mod marks;
pub mod rules;
