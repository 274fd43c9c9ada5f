// Loading: a units file fills a file rig, and a wires file fills a wiring between the units of a loaded rig.
#![tactic(auto)]

pub mod fault;
pub mod units;
pub mod wires;
