ghost use Rattle.std.specs.Prelude.{◌≡◌};
ghost use Rattle.wiring.specs.Codes.{code_of};

use super::port::Port;
use refusal::Code;
use thiserror::Error;

/// Why a wire is refused, with its input as given.
#[derive(Clone, Copy, PartialEq, Eq, Debug, Error)]
pub enum WireFault {
    /// A unit is over 15 or a port over 7, at either end.
    #[error("unit {}, input {}: a unit is over 15 or a port over 7", .0.unit, .0.port)]
    OutOfRange(Port),
    /// The input has a wire already.
    #[error("unit {}, input {}: the input is wired already", .0.unit, .0.port)]
    WiredTwice(Port),
}

/// The refusal by its numbers.
impl From<WireFault> for Code {
    ghost from_gives = { λ fault code. code ≡ code_of fault };

    fn from(fault: WireFault) -> Code {
        let (number, to) = match fault {
            WireFault::OutOfRange(to) => (18, to),
            WireFault::WiredTwice(to) => (19, to),
        };
        Code {
            number,
            layer: 2,
            a: to.unit,
            b: to.port,
        }
    }
}
