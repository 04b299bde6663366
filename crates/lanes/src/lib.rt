// Sixty-four scenarios at once: each judged literal has a word, and each scenario a lane of it.
#![tactic(auto)]

pub mod words;
