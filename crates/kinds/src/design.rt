use thiserror::Error;

/// A new unit as its line in a units file or a host in code describes it.
#[derive(Clone, Copy, PartialEq, Eq, Debug)]
pub enum Design {
    /// The sum of its input over time, from `x` on, within `lo` and `hi`, in steps of at most `m` ticks.
    Integrator { x: i32, lo: i32, hi: i32, m: u32 },
    /// `a` times input 0, plus `b` times input 1, plus `c`.
    Gain { a: i32, b: i32, c: i32 },
    /// Always `v`.
    Constant { v: i32 },
}

/// Why a unit cannot be made by a design.
#[derive(Clone, Copy, PartialEq, Eq, Debug, Error)]
pub enum DesignFault {
    /// m is not 1 to 1,000,000.
    #[error("m is not 1 to 1000000")]
    StepLimit,
    /// a is not −1,000 to 1,000.
    #[error("a is not -1000 to 1000")]
    FactorA,
    /// b is not −1,000 to 1,000.
    #[error("b is not -1000 to 1000")]
    FactorB,
    /// x lies outside lo to hi.
    #[error("x lies outside lo to hi")]
    Outside,
}
