// A rig whose steps are held to a limit.
#![tactic(auto)]

pub mod limit;
