// What a rig tells of its units, where a unit or port that it lacks has nothing.
ghost use Rattle.std.specs.Prelude.{◌≡◌};
ghost use Rattle.std.specs.List.{slice_get};
ghost use Rattle.set_up.specs.Outputs.{ports_at, mask_at, outputs_of};

use rig::Rig;
use rig::shape::Ports;
use wiring::port::Port;

/// How many inputs and outputs a unit has: none where there is no such unit.
pub(crate) fn ports<R: Rig>(rig: &R, unit: usize) -> Ports
    ensures { result ≡ ports_at (R.model rig.now) unit }
{
    match rig.ports(unit) {
        Ok(ports) => ports,
        Err(_) => Ports {
            inputs: 0,
            outputs: 0,
        },
    }
}

/// The mask of an output: no input where there is no such output.
pub(crate) fn mask<R: Rig>(rig: &R, output: Port) -> u8
    ensures { result ≡ mask_at (R.model rig.now) output }
{
    match rig.mask(output.unit, output.port) {
        Ok(mask) => mask,
        Err(_) => 0,
    }
}

/// The output with this number, by unit, then port.
pub(crate) fn output<R: Rig>(rig: &R, number: usize) -> Option<Port>
    ensures { result ≡ slice_get (outputs_of (R.model rig.now)) number }
{
    let mut left = number;
    for unit in 0..rig.units() {
        let outputs = ports(rig, unit).outputs;
        if left < outputs {
            return Some(Port { unit, port: left });
        }
        left -= outputs;
    }
    None
}
