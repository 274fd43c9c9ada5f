ghost use Rattle.std.specs.Prelude.{◌≡◌, map, length, replicate};

use super::port::Port;

/// For each input the one output that supplies it, if any: a row for each of 16 units, with a place for each of 8 inputs.
#[derive(Clone, Copy)]
pub struct Wiring {
    rows: [[Option<Port>; 8]; 16],
    ghost full: { map length rows ≡ replicate 16 8 },
}

pub mod calls;
