// Putting a rig under a limit, and taking it back.
ghost use Rattle.std.specs.Prelude.{◌≡◌, ℕ, ◌≤◌, min, max, false, map};
ghost use Rattle.limit_rig.specs.Limits.{nearest, unit_under, units_under, Beneath};

use super::Limit;
use rig::Rig;

impl<R: Rig> Limit<R> {
    /// The rig under the nearest limit from 1 to 1,000,000, no unit loose by its flag.
    #[tactic(auto, using(crate::specs::Covering::unflagged))]
    pub fn new(below: R, most: u32) -> Limit<R>
        ensures below { result.below ≡ below }
        ensures most { result.most ≡ nearest most }
        ensures units { units_under result.most result.flags (R.Rig.model result.below) ≡ map (unit_under (nearest most) false) (R.Rig.model below) }
    {
        Limit {
            below,
            most: most.clamp(1, 1_000_000),
            flags: [false; 16],
        }
    }

    /// The rig back. A unit that is not loose under the limit holds below what it held there.
    #[tactic(auto, using(crate::specs::Limiting::limiting))]
    pub fn into_below(self) -> R
        ensures below { result ≡ self.below }
        ensures units { Beneath self.most (R.Rig.model result) (units_under self.most self.flags (R.Rig.model self.below)) }
    {
        self.below
    }
}
