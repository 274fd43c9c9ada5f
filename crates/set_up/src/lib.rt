// A rig and its wiring, and the check that the two make a set-up that can run.
#![tactic(auto)]

mod causes;
mod checking;
pub mod fault;
mod feeding;
pub mod joined;
mod table;
mod units;
