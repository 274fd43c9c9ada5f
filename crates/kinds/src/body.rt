use super::constant::Constant;
use super::gain::Gain;
use super::integrator::Integrator;

/// What a unit in place holds: its state and its inputs.
#[derive(Clone, Copy, PartialEq, Eq, Debug)]
pub enum Body {
    Integrator(Integrator),
    Gain(Gain),
    Constant(Constant),
}

pub mod making;
pub mod rules;
