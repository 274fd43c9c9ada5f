ghost use Rattle.std.specs.Prelude.{◌≡◌};
ghost use Rattle.rig.specs.Codes.{code_of};

use refusal::Code;
use std::fmt;
use thiserror::Error;

/// Why a unit refuses a call.
#[derive(Clone, Copy, PartialEq, Eq, Debug, Error)]
pub enum Cause {
    /// There is no such unit, port or place.
    #[error("there is no such unit, port or place")]
    NoSuch = 1,
    /// The step is not 1 to 1,000,000.
    #[error("the step is not 1 to 1000000")]
    StepRange = 2,
    /// The unit is loose.
    #[error("the unit is loose")]
    Loose = 3,
    /// The place is filled.
    #[error("the place is filled")]
    Filled = 4,
    /// The place is empty.
    #[error("the place is empty")]
    Empty = 5,
}

/// What a call asks of a unit: the whole of it, one of its ports, or one of its places.
#[derive(Clone, Copy, PartialEq, Eq, Debug)]
pub enum Target {
    Whole,
    Port(usize),
    Place(usize),
}

impl fmt::Display for Target {
    fn fmt<W: fmt::Write>(&self, f: &mut fmt::Formatter<W>) -> fmt::Result {
        match self {
            Target::Whole => Ok(()),
            Target::Port(port) => write!(f, ", port {port}"),
            Target::Place(place) => write!(f, ", place {place}"),
        }
    }
}

/// A refused call: the cause, the unit as the called level numbers it, and what was asked of it.
#[derive(Clone, Copy, PartialEq, Eq, Debug, Error)]
#[error("unit {unit}{target}: {cause}")]
pub struct RigFault {
    pub cause: Cause,
    pub unit: usize,
    pub target: Target,
}

impl RigFault {
    /// The refusal for this cause, by this unit, of what was asked of it.
    pub fn new(cause: Cause, unit: usize, target: Target) -> RigFault
        ensures { result ≡ record { cause = cause; unit = unit; target = target } }
    {
        RigFault {
            cause,
            unit,
            target,
        }
    }
}

/// The refusal by its numbers.
impl From<RigFault> for Code {
    ghost from_gives = { λ fault code. code ≡ code_of fault };

    fn from(fault: RigFault) -> Code {
        let b = match fault.target {
            Target::Whole => 0,
            Target::Port(port) => port,
            Target::Place(place) => place,
        };
        Code {
            // `as` reads the numbers that the enum gives; a `From` would list them again.
            number: fault.cause as usize,
            layer: 4,
            a: fault.unit,
            b,
        }
    }
}
