// The rig whose units a units file or a host in code describes: integrators, gains and constants in one table.
#![tactic(auto)]

pub mod table;
