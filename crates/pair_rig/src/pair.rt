ghost use Rattle.std.specs.Prelude.{◌≡◌};
ghost use Rattle.pair_rig.specs.Joined.{joined};

use rig::Rig;

/// Two rigs as one: the units of the first, then those of the second. Units past the sixteenth are not reached.
#[derive(Drop)]
pub struct Pair<P: Rig, Q: Rig<Signal = P::Signal>> {
    first: P,
    second: Q,
}

pub mod calls;
mod owner;

impl<P: Rig, Q: Rig<Signal = P::Signal>> Pair<P, Q> {
    /// The two rigs as one.
    pub fn new(first: P, second: Q) -> Pair<P, Q>
        ensures first { result.first ≡ first }
        ensures second { result.second ≡ second }
        ensures units { joined (P.Rig.model result.first) (Q.Rig.model result.second) ≡ joined (P.Rig.model first) (Q.Rig.model second) }
    {
        Pair { first, second }
    }

    /// The two rigs back.
    pub fn into_parts(self) -> (P, Q)
        ensures { result ≡ (self.first, self.second) }
    {
        (self.first, self.second)
    }
}
