// Why a call of a unit that is loose by its flag is refused.
ghost use Rattle.std.specs.Prelude.{◌≡◌};
ghost use Rattle.limit_rig.specs.Limits.{loose_if, step_cause};

use rig::cause::Cause;

/// The unit is loose, if there is what was asked for.
pub(super) fn loose_if(there: bool) -> Cause
    ensures { result ≡ loose_if there }
{
    if there { Cause::Loose } else { Cause::NoSuch }
}

/// The unit is loose, if it is there and the step is one that a rig may take.
pub(super) fn step_cause(there: bool, h: u32) -> Cause
    ensures { result ≡ step_cause there h }
{
    if there && !(1..=1_000_000).contains(&h) {
        return Cause::StepRange;
    }
    loose_if(there)
}
