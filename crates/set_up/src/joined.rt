ghost use Rattle.std.specs.Prelude.{◌≡◌};
ghost use Rattle.std.specs.List.{slice_get};
ghost use Rattle.set_up.specs.Outputs.{outputs_of, Means};
ghost use Rattle.set_up.specs.Causes.{Checked, Exactly};

use crate::checking::checked;
use crate::fault::CheckFault;
use crate::units::output;
use graph::found::NodeOrder;
use rig::Rig;
use wiring::port::Port;
use wiring::table::Wiring;

/// A rig and its wiring, instantiated: it is moved on and taken apart, never let go.
pub struct SetUp<R: Rig> {
    rig: R,
    wiring: Wiring,
}

impl<R: Rig> SetUp<R> {
    /// The set-up of a rig and a wiring.
    pub fn new(rig: R, wiring: Wiring) -> SetUp<R>
        ensures { (result.rig ≡ rig) × (result.wiring ≡ wiring) }
    {
        SetUp { rig, wiring }
    }

    /// The rig and the wiring back.
    pub fn into_parts(self) -> (R, Wiring)
        ensures { result ≡ (self.rig, self.wiring) }
    {
        let Self { rig, wiring } = self;
        (rig, wiring)
    }

    /// The order in which the outputs are settled, or the first cause why there is none. Before the search no list is touched; after it the marks are clear, and the circle list is as it was unless a circle is shown at its front.
    #[tactic(auto, using(crate::proofs::Exact::exactly))]
    pub fn check(&self, circle: &mut [u8], marks: &mut [u8]) -> Result<NodeOrder, CheckFault>
        ensures answer { Checked (R.model self.now.rig) self.now.wiring circle.old circle.new marks.old marks.new result }
        ensures means { Means (R.model self.now.rig) self.now.wiring }
        ensures exact { Exactly (R.model self.now.rig) self.now.wiring circle.old marks.old result }
    {
        checked(&self.rig, &self.wiring, circle, marks)
    }

    /// The output with this number.
    pub fn output(&self, number: usize) -> Option<Port>
        ensures { result ≡ slice_get (outputs_of (R.model self.now.rig)) number }
    {
        output(&self.rig, number)
    }
}
