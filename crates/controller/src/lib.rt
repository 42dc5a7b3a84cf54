// The controller: opening, and its calls. Their definition is in specs/.
#![tactic(auto)]

pub mod by_hand;
pub mod call;
pub mod calling;
pub mod console;
pub mod controller;
pub mod opening;
mod refusing;
pub mod running;
