// Names of units: 1 to 8 of the letters a to z and the digits 0 to 9.
#![tactic(auto)]

pub mod name;
