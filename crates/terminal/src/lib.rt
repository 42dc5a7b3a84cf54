// What a scanner and a recorder have in common: what they are given, and how they work.
#![tactic(auto)]

pub mod setup;
pub mod state;
pub mod station;
pub mod work;
mod working;
