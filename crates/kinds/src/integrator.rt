ghost use Rattle.std.specs.Prelude.{ℕ, ◌≤ℤ◌};

use super::parameters::StepLimit;

/// An integrator's state and input: x, which never leaves lo to hi, the longest step m, and the input u.
#[derive(Clone, Copy, PartialEq, Eq, Debug)]
pub struct Integrator {
    x: i32,
    lo: i32,
    hi: i32,
    m: StepLimit,
    u: i32,
    ghost above: { lo ≤ℤ x },
    ghost below: { x ≤ℤ hi },
}

pub mod rules;
