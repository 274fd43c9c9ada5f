// The check of a rig and a wiring.
ghost use Rattle.std.specs.Prelude.{◌≡◌, ℕ, ◌<◌, length, slice_index};
ghost use Rattle.set_up.specs.Causes.{Checked};
ghost use Rattle.set_up.specs.Listing.{entry};

use crate::causes::clear;
use crate::fault::CheckFault;
use crate::feeding::OutputGraph;
use crate::table::Outputs;
use graph::found::{Found, NodeOrder};
use graph::search::search;
use rig::Rig;
use wiring::port::Port;
use wiring::table::Wiring;

/// The first output of a circle that is shown.
fn first_of(outputs: &Outputs, circle: &[u8]) -> Port
    requires { (0 < length circle.now) × (slice_index circle.now 0 < 64) }
    ensures { result ≡ (entry outputs.now (slice_index circle.now 0)).port }
{
    outputs.list[circle[0] as usize].port
}

/// The order of the outputs, or the first cause why there is none.
pub(crate) fn checked<R: Rig>(
    rig: &R,
    wiring: &Wiring,
    circle: &mut [u8],
    marks: &mut [u8],
) -> Result<NodeOrder, CheckFault>
    ensures { Checked (R.model rig.now) wiring.now circle.old circle.new marks.old marks.new result }
{
    clear(rig, wiring, circle, marks)?;
    let outputs = Outputs::list(rig);
    let graph = OutputGraph {
        outputs,
        wiring: *wiring,
    };
    match search(&graph, circle, marks) {
        Ok(Found::Order(order)) => Ok(order),
        Ok(Found::Circle(count)) => { Err(CheckFault::Circle(first_of(&outputs, circle), count)) }
        Err(_) => Err(CheckFault::ListLength),
    }
}
