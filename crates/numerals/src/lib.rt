// Numbers as files write them: whole numbers of the signal range in decimal.
#![tactic(auto)]

pub mod number;
