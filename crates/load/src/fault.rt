ghost use Rattle.std.specs.Prelude.{◌≡◌};
ghost use Rattle.load.specs.Codes.{code_of};
ghost use Rattle.load.specs.declared.fault.LoadFault.TheVariants.{Refused};

use lines::fault::FileFault;
use refusal::Code;
use thiserror::Error;

/// Why a units file is not loaded.
#[derive(Clone, Copy, PartialEq, Eq, Debug, Error)]
pub enum LoadFault {
    /// A line cannot be read.
    #[error("{0}")]
    Refused(FileFault),
    /// There is no memory for one more unit.
    #[error("there is no memory for one more unit")]
    NoMemory,
}

impl From<FileFault> for LoadFault {
    ghost from_gives = { λ fault given. given ≡ Refused fault };

    fn from(fault: FileFault) -> LoadFault {
        LoadFault::Refused(fault)
    }
}

impl LoadFault {
    /// The refusal by its numbers; want of memory has none.
    // No `From`: to what has no numbers it would be no conversion.
    pub fn code(self) -> Option<Code>
        ensures { result ≡ code_of self }
    {
        match self {
            LoadFault::Refused(line) => Some(Code::from(line)),
            LoadFault::NoMemory => None,
        }
    }
}
