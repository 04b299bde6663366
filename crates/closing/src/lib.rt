// The true and the false sets of 64 scenarios: T closed over the rules of the file, F read from the bytes of the dual.
#![tactic(auto)]

pub mod falsity;
mod passes;
pub mod truth;
