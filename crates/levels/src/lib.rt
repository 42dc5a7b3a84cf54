// Interrupt levels, and the choice of a requester.
#![tactic(auto)]

pub mod choice;
pub mod interrupts;
pub mod points;
pub mod rules;
pub mod state;
