// A new body, by its design.
ghost use Rattle.std.specs.Prelude.{◌≡◌};
ghost use Rattle.kinds.specs.Designs.{Made, design_of};

use super::super::constant::Constant;
use super::super::design::{Design, DesignFault};
use super::super::gain::Gain;
use super::super::integrator::Integrator;
use super::Body;

impl Body {
    /// A body with the design's state and each input 0, or the first cause against it.
    pub fn new(design: Design) -> Result<Body, DesignFault>
        ensures { Made design result }
    {
        match design {
            Design::Integrator { x, lo, hi, m } => {
                Integrator::new(x, lo, hi, m).map(Body::Integrator)
            }
            Design::Gain { a, b, c } => Gain::new(a, b, c).map(Body::Gain),
            Design::Constant { v } => Ok(Body::Constant(Constant::new(v))),
        }
    }

    /// The design of a unit as it stands: one made by it now would hold the same state.
    pub fn design(&self) -> Design
        ensures { result ≡ design_of self.now }
    {
        match self {
            Body::Integrator(integrator) => integrator.design(),
            Body::Gain(gain) => gain.design(),
            Body::Constant(constant) => constant.design(),
        }
    }
}
