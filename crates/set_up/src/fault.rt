ghost use Rattle.std.specs.Prelude.{◌≡◌};
ghost use Rattle.set_up.specs.Codes.{code_of, circle_count};

use refusal::Code;
use thiserror::Error;
use wiring::port::Port;

/// Why a set-up is refused, in the order in which the causes count.
#[derive(Clone, Copy, PartialEq, Eq, Debug, Error)]
pub enum CheckFault {
    /// A list of the check is not 64 bytes long.
    #[error("a list of the check is not 64 bytes long")]
    ListLength,
    /// There is no unit, or there are over 64 inputs or 64 outputs.
    #[error("no unit, or over 64 inputs or 64 outputs")]
    Size,
    /// The lowest unit that is loose or has a filled place.
    #[error("unit {0} is loose or has a filled place")]
    InUse(usize),
    /// The lowest input whose wire touches what the rig lacks.
    #[error("unit {}, input {}: its wire touches what the rig lacks", .0.unit, .0.port)]
    Lacking(Port),
    /// The lowest input without a wire.
    #[error("unit {}, input {}: no wire", .0.unit, .0.port)]
    Unwired(Port),
    /// The first output of a circle, and of how many outputs it is.
    #[error("unit {}, output {}: a circle of {} outputs", .0.unit, .0.port, .1)]
    Circle(Port, usize),
}

/// The refusal by its numbers.
impl From<CheckFault> for Code {
    ghost from_gives = { λ fault code. code ≡ code_of fault };

    fn from(fault: CheckFault) -> Code {
        let (number, a, b) = match fault {
            CheckFault::ListLength => (25, 0, 0),
            CheckFault::Size => (23, 0, 0),
            CheckFault::InUse(unit) => (22, unit, 0),
            CheckFault::Lacking(to) => (24, to.unit, to.port),
            CheckFault::Unwired(to) => (20, to.unit, to.port),
            CheckFault::Circle(first, _) => (21, first.unit, first.port),
        };
        Code {
            number,
            layer: 2,
            a,
            b,
        }
    }
}

impl CheckFault {
    /// How many outputs the circle has that is shown; 0 beside every other cause.
    pub fn circle_count(&self) -> usize
        ensures { result ≡ circle_count self.now }
    {
        match self {
            CheckFault::Circle(_, count) => *count,
            _ => 0,
        }
    }
}
