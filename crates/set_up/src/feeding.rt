// The graph of the outputs: which of them feeds which.
ghost use Rattle.std.specs.Prelude.{◌≡◌, ◌<◌, Decides};
ghost use Rattle.set_up.specs.Outputs.{ReadsAt, reads};
ghost use Rattle.set_up.specs.Listing.{feeds_in};

use crate::table::Outputs;
use graph::Graph;
use wiring::port::Port;
use wiring::table::Wiring;

/// Whether an input of a unit is in a mask, and an output supplies it.
fn reads_at(wiring: &Wiring, from: Port, to: Port, mask: u8) -> bool
    requires { to.port < 8 }
    ensures { Decides result (ReadsAt wiring.now from to.unit mask to.port) }
{
    mask >> to.port & 1 == 1 && wiring.source(to) == Some(from)
}

/// Whether an output at this unit with this mask reads what another supplies.
fn reads(wiring: &Wiring, from: Port, unit: usize, mask: u8) -> bool
    ensures { result ≡ reads wiring.now from unit mask }
{
    for port in 0..8 {
        if reads_at(wiring, from, Port { unit, port }, mask) {
            return true;
        }
    }
    false
}

/// The outputs of a rig, with the wiring that tells which feeds which.
#[derive(Clone, Copy)]
pub(crate) struct OutputGraph {
    pub(crate) outputs: Outputs,
    pub(crate) wiring: Wiring,
}

impl Graph for OutputGraph {
    ghost size = { λ g. g.outputs.count };

    ghost arc = { λ g a b. feeds_in g.wiring g.outputs a b };

    fn nodes(&self) -> usize {
        self.outputs.count
    }

    fn feeds(&self, feeder: usize, node: usize) -> bool {
        if feeder >= self.outputs.count || node >= self.outputs.count {
            return false;
        }
        let to = self.outputs.list[node];
        reads(
            &self.wiring,
            self.outputs.list[feeder].port,
            to.port.unit,
            to.mask,
        )
    }

    ghost few = { λ g. g.outputs.few };
}
