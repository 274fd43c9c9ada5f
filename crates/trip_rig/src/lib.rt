// The rig that plays a list of pairs, ticks then value: one unit whose output is the present value.
#![tactic(auto)]

pub mod trip;
