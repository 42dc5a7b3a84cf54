// The controller's own plain state besides registers and levels: channel records, switches, counts, faults.
#![tactic(auto)]

pub mod chain;
pub mod channel;
pub mod fault;
pub mod panel;
pub mod wish;
