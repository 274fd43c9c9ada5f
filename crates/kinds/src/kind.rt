/// The kinds of unit. Each has one output.
#[derive(Clone, Copy, PartialEq, Eq, Debug)]
pub enum Kind {
    Integrator,
    Gain,
    Constant,
}

pub mod behaving;
pub mod shape;
