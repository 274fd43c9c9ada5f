// The rig of units that stand in one list, whatever their kinds are.
#![tactic(auto)]

pub mod calls;
pub mod list;
pub mod numbered;
pub mod unit;
