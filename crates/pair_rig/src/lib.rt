// Two rigs as one.
#![tactic(auto)]

pub mod pair;
