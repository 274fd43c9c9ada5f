// A refusal by its numbers, the same for every layer of the project.
#![tactic(auto)]

ghost use Rattle.std.specs.Prelude.{◌∷◌, ◌++◌, Some, decimal};

use std::fmt;

/// The refusal's own number, its layer's, and two values whose meaning the layer fixes, 0 where they mean nothing.
#[derive(Clone, Copy, PartialEq, Eq, Debug)]
pub struct Code {
    pub number: usize,
    pub layer: usize,
    pub a: usize,
    pub b: usize,
}

/// The four numbers with a blank (32) between them, as every program prints a refusal.
impl fmt::Display for Code {
    ghost output = { λ c. Some (decimal c.number ++ (32 ∷ (decimal c.layer ++ (32 ∷ (decimal c.a ++ (32 ∷ decimal c.b)))))) };

    fn fmt<W: fmt::Write>(&self, f: &mut fmt::Formatter<W>) -> fmt::Result {
        write!(f, "{} {} {} {}", self.number, self.layer, self.a, self.b)
    }
}
