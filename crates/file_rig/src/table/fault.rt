ghost use Rattle.std.specs.Prelude.{◌≡◌};
ghost use Rattle.file_rig.specs.Faults.{of_design, of_push};

use kinds::design::DesignFault;
use thiserror::Error;
use unit_rig::list::PushFault;

/// Why a unit is not added to a file rig.
#[derive(Clone, Copy, PartialEq, Eq, Debug, Error)]
pub enum AddFault {
    /// The table has 16 units.
    #[error("the table has 16 units")]
    TableFull,
    /// The name is not 1 to 8 of a to z and 0 to 9.
    #[error("a name has 1 to 8 of a to z and 0 to 9")]
    BadName,
    /// A unit has this name already.
    #[error("a unit has this name already")]
    NameUsed,
    /// A parameter is out of its range, or x lies outside lo to hi.
    #[error("{0}")]
    BadDesign(DesignFault),
    /// There is no memory for one more record.
    #[error("there is no memory for one more unit")]
    NoMemory,
}

impl From<DesignFault> for AddFault {
    ghost from_gives = { λ fault given. given ≡ of_design fault };

    fn from(fault: DesignFault) -> AddFault {
        AddFault::BadDesign(fault)
    }
}

impl From<PushFault> for AddFault {
    ghost from_gives = { λ fault given. given ≡ of_push fault };

    fn from(fault: PushFault) -> AddFault {
        match fault {
            PushFault::Full => AddFault::TableFull,
            PushFault::NoMemory => AddFault::NoMemory,
        }
    }
}
