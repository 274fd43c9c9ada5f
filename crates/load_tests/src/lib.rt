// Units and wires files from tables: what the load of each answers, and what it leaves in the rig or the wiring.
#![tactic(auto)]

#[cfg(test)]
mod bytes;
#[cfg(test)]
mod cursor;
#[cfg(test)]
mod host;
#[cfg(test)]
mod told;
#[cfg(test)]
mod units;
#[cfg(test)]
mod wires;
