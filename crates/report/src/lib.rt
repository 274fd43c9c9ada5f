// The texts that a program prints of units, of wires, and of a file that is refused.
#![tactic(auto)]

pub mod no_memory;
pub mod quoted;
pub mod refused;
pub mod unit;
pub mod wire;
