// Which output supplies each input: at most 16 units, with at most 8 ports of a kind each.
#![tactic(auto)]

pub mod fault;
pub mod port;
pub mod table;
