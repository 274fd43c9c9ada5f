/// A port of a unit: an output or an input, by the unit's number and its own.
#[derive(Clone, Copy, PartialEq, Eq, Debug)]
pub struct Port {
    pub unit: usize,
    pub port: usize,
}
