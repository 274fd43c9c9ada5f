ghost use Rattle.std.specs.Prelude.{◌≡◌, ℕ, ◌+◌, ◌<◌, ◌≤◌, length};
ghost use Rattle.pair_rig.specs.Joined.{Owned};

use super::Pair;
use rig::Rig;
use rig::cause::{Cause, RigFault, Target};

/// Which rig of a pair has a unit; the second numbers its own from 0.
// No `Option<usize>`: that `None` is the first rig it would not say.
#[derive(Drop)]
pub(super) enum Owner {
    First,
    Second(usize),
}

impl<P: Rig, Q: Rig<Signal = P::Signal>> Pair<P, Q> {
    /// The rig that has this unit. Where neither has it, the refusal of what was asked of it.
    pub(super) fn owner(&self, unit: usize, target: Target) -> Result<Owner, RigFault>
        ensures { Owned (P.Rig.model self.now.first) (Q.Rig.model self.now.second) unit target result }
    {
        let count = self.first.units();
        if unit >= 16 {
            Err(RigFault::new(Cause::NoSuch, unit, target))
        } else if unit < count {
            Ok(Owner::First)
        } else {
            Ok(Owner::Second(unit - count))
        }
    }
}
