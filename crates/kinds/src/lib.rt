// The three kinds of unit that a units file names: integrator, gain and constant, with their rules.
#![tactic(auto)]

pub mod body;
pub mod constant;
pub mod design;
pub mod gain;
pub mod integrator;
pub mod kind;
mod numbers;
mod parameters;
