ghost use Rattle.std.specs.Prelude.{◌≡◌, ℕ, ◌+ℤ◌, ◌*ℤ◌, slice_set};
ghost use Rattle.kinds.specs.Rules.{gain};
ghost use Rattle.kinds.specs.Contents.{gain_held};
ghost use Rattle.kinds.specs.Designs.{MadeBy};

use super::super::design::{Design, DesignFault};
use super::super::numbers::saturate;
use super::super::parameters::Factor;
use super::Gain;

impl Gain {
    /// With inputs 0, or the first cause against it.
    pub(crate) fn new(a: i32, b: i32, c: i32) -> Result<Gain, DesignFault>
        ensures { MadeBy (Design.Gain a b c) gain_held result }
    {
        Ok(Gain {
            a: Factor::new(a).ok_or(DesignFault::FactorA)?,
            b: Factor::new(b).ok_or(DesignFault::FactorB)?,
            c,
            inputs: [0; 2],
        })
    }

    /// The design of the gain.
    pub(crate) fn design(&self) -> Design
        ensures { result ≡ Design.Gain self.now.a.value self.now.b.value self.now.c }
    {
        Design::Gain {
            a: self.a.value,
            b: self.b.value,
            c: self.c,
        }
    }

    /// OUT: the sum, held to the signal range.
    pub(crate) fn out(&self) -> i32
        ensures { result ≡ gain.out 0 (gain_held self.now).state (gain_held self.now).inputs }
    {
        let [u0, u1] = self.inputs;
        saturate(self.sum(u0, u1))
    }

    /// a × u0 + b × u1 + c.
    fn sum(&self, u0: i32, u1: i32) -> i64
        ensures { result ≡ self.now.a.value *ℤ u0 +ℤ self.now.b.value *ℤ u1 +ℤ self.now.c }
    {
        self.a.times(u0) + self.b.times(u1) + i64::from(self.c)
    }

    /// Input 0 or 1 set; no other port is one.
    pub(crate) fn put(mut self, port: usize, value: i32) -> Gain
        ensures { gain_held result ≡ record { state = (gain_held self).state; inputs = slice_set (gain_held self).inputs port value } }
    {
        // By index: that a write through `get_mut` sets one input and no other was not proved.
        if port < self.inputs.len() {
            self.inputs[port] = value;
        }
        self
    }
}
