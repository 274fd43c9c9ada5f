// Which unit a refusal names: a unit's cause becomes a fault at its rig, and a fault of a rig below is renumbered by the rig above it.
ghost use Rattle.std.specs.Prelude.{◌≡◌};
ghost use Rattle.rig.specs.Calls.{blamed, renumbered};

use super::cause::{Cause, RigFault, Target};

/// What a unit answered, a cause made into the fault of that unit.
pub fn blame<T>(answer: Result<T, Cause>, unit: usize, target: Target) -> Result<T, RigFault>
    ensures { result ≡ blamed unit target answer }
{
    answer.map_err(|cause| RigFault::new(cause, unit, target))
}

/// What a rig below answered, a fault's unit numbered as this level numbers it.
pub fn renumber<T>(answer: Result<T, RigFault>, unit: usize) -> Result<T, RigFault>
    ensures { result ≡ renumbered unit answer }
{
    answer.map_err(|fault| RigFault { unit, ..fault })
}
