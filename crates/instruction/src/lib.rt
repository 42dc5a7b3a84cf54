// Decoding: what the first word of an instruction says.
#![tactic(auto)]

pub mod decoding;
pub mod words;
