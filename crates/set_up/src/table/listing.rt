// The outputs of a rig, listed by unit, then port.
ghost use Rattle.std.specs.Prelude.{◌≡◌, ℕ, ◌+◌, ◌<◌, ◌≤◌, List, [], ◌++◌, length};
ghost use Rattle.wiring.specs.declared.port.Port.{Port};
ghost use Rattle.set_up.specs.Outputs.{ports_from, ports_at, outputs_of};
ghost use Rattle.set_up.specs.Passing.{Fits};
ghost use Rattle.set_up.specs.Listing.{OneMore, Lists};

use super::{Output, Outputs};
use crate::units::{mask, ports};
use rig::Rig;
use wiring::port::Port;

impl Outputs {
    /// No output.
    fn new() -> Outputs
        ensures { result.count ≡ 0 }
    {
        let output = Output {
            port: Port { unit: 0, port: 0 },
            mask: 0,
        };
        Outputs {
            list: [output; 64],
            count: 0,
        }
    }

    /// Adds an output.
    fn push(&mut self, output: Output)
        requires { self.old.count < 64 }
        ensures { OneMore self.old output self.new }
    {
        self.list[self.count] = output;
        self.count += 1;
    }

    /// Adds the outputs of a unit.
    fn add_unit<R: Rig>(&mut self, rig: &R, unit: usize)
        requires { self.old.count + (ports_at (R.model rig.now) unit).outputs ≤ 64 }
        ensures { (before : List Port) → Lists (R.model rig.now) before self.old → Lists (R.model rig.now) (before ++ ports_from unit 0 (ports_at (R.model rig.now) unit).outputs) self.new }
    {
        for port in 0..ports(rig, unit).outputs {
            let output = Port { unit, port };
            self.push(Output {
                port: output,
                mask: mask(rig, output),
            });
        }
    }

    /// The outputs of a rig.
    pub(crate) fn list<R: Rig>(rig: &R) -> Outputs
        requires { Fits (R.model rig.now) }
        ensures { Lists (R.model rig.now) (outputs_of (R.model rig.now)) result }
    {
        let mut outputs = Outputs::new();
        for unit in 0..rig.units() {
            outputs.add_unit(rig, unit);
        }
        outputs
    }
}
