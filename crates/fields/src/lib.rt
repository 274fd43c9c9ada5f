// Text parted by a separator: the fields of a line by commas, the lines of a file by line feeds.
#![tactic(auto)]

pub mod parts;
