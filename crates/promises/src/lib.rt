// The promises over the definition, each on the contract of a function, so that no check passes without their proofs. A function answers
// how many clauses its promise has.
#![tactic(auto)]

pub mod every_plan;
pub mod instruments;
pub mod protection;
pub mod stains;
pub mod ties;
pub mod totals;
