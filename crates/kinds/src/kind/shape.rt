ghost use Rattle.std.specs.Prelude.{◌≡◌, ℕ, slice_index};
ghost use Rattle.kinds.specs.Contents.{rules_of};

use super::Kind;

impl Kind {
    /// How many inputs a unit of this kind has.
    pub fn inputs(self) -> usize
        ensures { result ≡ (rules_of self).inputs }
    {
        match self {
            Kind::Integrator => 1,
            Kind::Gain => 2,
            Kind::Constant => 0,
        }
    }

    /// The mask of the one output.
    pub fn mask(self) -> u8
        ensures { result ≡ slice_index (rules_of self).masks 0 }
    {
        match self {
            Kind::Integrator => 0,
            Kind::Gain => 3,
            Kind::Constant => 0,
        }
    }
}
