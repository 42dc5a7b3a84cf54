// The processor's registers, with a method for each group of instructions.
#![tactic(auto)]

pub mod arithmetic;
pub mod branches;
pub mod double;
pub mod operand;
pub mod shifts;
pub mod state;
mod word;
