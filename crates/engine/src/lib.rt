// The machine: its own plain state with its four devices, and what it does. What it does is defined in specs/,
// a file to a topic.
#![tactic(auto)]

mod arithmetic;
mod branches;
mod channels;
mod checks;
mod cycles;
pub mod engine;
mod indexes;
mod indicators;
mod operands;
mod operations;
pub mod place;
mod ports;
pub mod references;
pub mod state;
pub mod status;
mod stealing;
pub mod step;
mod stepping;
mod xio;
