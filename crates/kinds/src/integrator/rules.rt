ghost use Rattle.std.specs.Prelude.{◌≡◌, ℕ, ◌≤◌, slice_set};
ghost use Rattle.kinds.specs.Rules.{integrator};
ghost use Rattle.kinds.specs.Contents.{integrator_held, Advanced};
ghost use Rattle.kinds.specs.Designs.{MadeBy};

use super::super::design::{Design, DesignFault};
use super::super::numbers::{advance, between, gap};
use super::super::parameters::StepLimit;
use super::Integrator;

impl Integrator {
    /// At x with input 0, or the first cause against it.
    pub(crate) fn new(x: i32, lo: i32, hi: i32, m: u32) -> Result<Integrator, DesignFault>
        ensures { MadeBy (Design.Integrator x lo hi m) integrator_held result }
    {
        let m = StepLimit::new(m).ok_or(DesignFault::StepLimit)?;
        if !(lo..=hi).contains(&x) {
            return Err(DesignFault::Outside);
        }
        Ok(Integrator { x, lo, hi, m, u: 0 })
    }

    /// The design of the integrator as it stands.
    pub(crate) fn design(&self) -> Design
        ensures { result ≡ Design.Integrator self.now.x self.now.lo self.now.hi self.now.m.ticks }
    {
        Design::Integrator {
            x: self.x,
            lo: self.lo,
            hi: self.hi,
            m: self.m.ticks,
        }
    }

    /// OUT: the value x.
    pub(crate) fn out(&self) -> i32
        ensures { result ≡ integrator.out 0 (integrator_held self.now).state (integrator_held self.now).inputs }
    {
        self.x
    }

    /// BOUND: m, or fewer ticks where a stop comes first.
    pub(crate) fn bound(&self) -> u32
        ensures { result ≡ integrator.bound (integrator_held self.now).state (integrator_held self.now).inputs }
    {
        if self.u == 0 {
            return self.m.ticks;
        }
        let room = if self.u > 0 {
            gap(self.x, self.hi)
        } else {
            gap(self.lo, self.x)
        };
        (room / self.u.unsigned_abs()).min(self.m.ticks)
    }

    /// NEXT by h ticks, unless m or a stop comes first.
    pub(crate) fn next(mut self, h: u32) -> Option<Integrator>
        ensures { Advanced self h result }
    {
        if h > self.m.ticks {
            return None;
        }
        self.x = between(self.lo, advance(self.x, self.u, h), self.hi)?;
        Some(self)
    }

    /// The input set; no other port is one.
    pub(crate) fn put(mut self, port: usize, value: i32) -> Integrator
        ensures { integrator_held result ≡ record { state = (integrator_held self).state; inputs = slice_set (integrator_held self).inputs port value } }
    {
        if port == 0 {
            self.u = value;
        }
        self
    }
}
