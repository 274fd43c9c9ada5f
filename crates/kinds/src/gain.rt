ghost use Rattle.std.specs.Prelude.{◌≡◌, ℕ, length};

use super::parameters::Factor;

/// A gain's state and inputs: factors a and b, the addend c, and the inputs u0 and u1.
#[derive(Clone, Copy, PartialEq, Eq, Debug)]
pub struct Gain {
    a: Factor,
    b: Factor,
    c: i32,
    inputs: [i32; 2],
    ghost two: { length inputs ≡ 2 },
}

pub mod rules;
