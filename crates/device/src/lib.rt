// What a device is: the two traits that a make implements, and what a make means.
#![tactic(auto)]

pub mod answer;
pub mod control;
pub mod function;
pub mod interface;
pub mod table;
