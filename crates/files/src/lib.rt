// A cursor over the lent bytes of a units or wires file, that gives out one line at each call.
#![tactic(auto)]

pub mod cursor;
