// The rules and the dual as rows of numbers.
#![tactic(auto)]

pub mod entries;
pub mod rules;
