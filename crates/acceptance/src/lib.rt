// Acceptance: one list of calls, gone down with two controllers, and what is promised of them.
#![tactic(auto)]

pub mod accepting;
mod going;
pub mod sides;
