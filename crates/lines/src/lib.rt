// One line of a units or wires file: what it says, or the first cause for which it cannot be read.
#![tactic(auto)]

pub mod fault;
pub mod header;
mod text;
pub mod unit;
pub mod wire;
