// The causes for which a set-up is refused before the search, each by its lowest unit and port.
ghost use Rattle.std.specs.Prelude.{◌≡◌, ℕ, ◌<◌, length, Decides, MatchOption};
ghost use Rattle.wiring.specs.declared.port.Port.{Port};
ghost use Rattle.set_up.specs.Outputs.{HasInput, HasOutput, inputs_of, outputs_of};
ghost use Rattle.set_up.specs.Passing.{Fits, Touches};
ghost use Rattle.set_up.specs.Causes.{is_used, IsInUse, IsLacking, IsUnwired, LowestUnit, LowestPort, Cleared};

use crate::fault::CheckFault;
use crate::units::ports;
use rig::Rig;
use rig::shape::{Ports, Status};
use wiring::port::Port;
use wiring::table::Wiring;

/// How many inputs and outputs all units have.
fn totals<R: Rig>(rig: &R) -> Ports
    ensures inputs { result.inputs ≡ length (inputs_of (R.model rig.now)) }
    ensures outputs { result.outputs ≡ length (outputs_of (R.model rig.now)) }
{
    let mut all = Ports {
        inputs: 0,
        outputs: 0,
    };
    for unit in 0..rig.units() {
        let more = ports(rig, unit);
        all.inputs += more.inputs;
        all.outputs += more.outputs;
    }
    all
}

/// Whether there is some unit, and at most 64 inputs and 64 outputs.
fn fits<R: Rig>(rig: &R) -> bool
    ensures { Decides result (Fits (R.model rig.now)) }
{
    let all = totals(rig);
    rig.units() > 0 && all.inputs <= 64 && all.outputs <= 64
}

/// Whether a unit with this status is loose or has a filled place.
fn is_used(status: Status) -> bool
    ensures { result ≡ is_used status }
{
    let [first, second, third, fourth] = status.filled;
    status.loose || first || second || third || fourth
}

/// Whether a unit is loose or has a filled place.
fn is_in_use<R: Rig>(rig: &R, unit: usize) -> bool
    ensures { Decides result (IsInUse (R.model rig.now) unit) }
{
    match rig.status(unit) {
        Ok(status) => is_used(status),
        Err(_) => false,
    }
}

/// The lowest unit that is loose or has a filled place.
fn first_in_use<R: Rig>(rig: &R) -> Option<usize>
    ensures { MatchOption result ((unit : ℕ) → IsInUse (R.model rig.now) unit → ⊥) (λ unit. LowestUnit (IsInUse (R.model rig.now)) unit) }
{
    for unit in 0..rig.units() {
        if is_in_use(rig, unit) {
            return Some(unit);
        }
    }
    None
}

/// Whether a rig has an input.
fn has_input<R: Rig>(rig: &R, input: Port) -> bool
    ensures { Decides result (HasInput (R.model rig.now) input) }
{
    input.port < ports(rig, input.unit).inputs
}

/// Whether a rig has an output.
fn has_output<R: Rig>(rig: &R, output: Port) -> bool
    ensures { Decides result (HasOutput (R.model rig.now) output) }
{
    output.port < ports(rig, output.unit).outputs
}

/// Whether a wire touches only what the rig has.
fn touches<R: Rig>(rig: &R, from: Port, to: Port) -> bool
    ensures { Decides result (Touches (R.model rig.now) from to) }
{
    has_input(rig, to) && has_output(rig, from)
}

/// Whether the wire of an input touches what the rig lacks.
fn is_lacking<R: Rig>(rig: &R, wiring: &Wiring, to: Port) -> bool
    ensures { Decides result (IsLacking (R.model rig.now) wiring.now to) }
{
    match wiring.source(to) {
        Some(from) => !touches(rig, from, to),
        None => false,
    }
}

/// The lowest input whose wire touches what the rig lacks.
fn first_lacking<R: Rig>(rig: &R, wiring: &Wiring) -> Option<Port>
    ensures { MatchOption result ((to : Port) → IsLacking (R.model rig.now) wiring.now to → ⊥) (λ to. LowestPort (IsLacking (R.model rig.now) wiring.now) to) }
{
    for unit in 0..16 {
        for port in 0..8 {
            let to = Port { unit, port };
            if is_lacking(rig, wiring, to) {
                return Some(to);
            }
        }
    }
    None
}

/// Whether an input has no wire.
fn is_unwired<R: Rig>(rig: &R, wiring: &Wiring, to: Port) -> bool
    ensures { Decides result (IsUnwired (R.model rig.now) wiring.now to) }
{
    has_input(rig, to) && wiring.source(to).is_none()
}

/// The lowest input without a wire.
fn first_unwired<R: Rig>(rig: &R, wiring: &Wiring) -> Option<Port>
    ensures { MatchOption result ((to : Port) → IsUnwired (R.model rig.now) wiring.now to → ⊥) (λ to. LowestPort (IsUnwired (R.model rig.now) wiring.now) to) }
{
    for unit in 0..16 {
        for port in 0..8 {
            let to = Port { unit, port };
            if is_unwired(rig, wiring, to) {
                return Some(to);
            }
        }
    }
    None
}

/// Refuses for the first cause before the search.
pub(crate) fn clear<R: Rig>(
    rig: &R,
    wiring: &Wiring,
    circle: &[u8],
    marks: &[u8],
) -> Result<(), CheckFault>
    ensures { Cleared (R.model rig.now) wiring.now circle.now marks.now result }
{
    if circle.len() != 64 || marks.len() != 64 {
        return Err(CheckFault::ListLength);
    }
    if !fits(rig) {
        return Err(CheckFault::Size);
    }
    if let Some(unit) = first_in_use(rig) {
        return Err(CheckFault::InUse(unit));
    }
    if let Some(to) = first_lacking(rig, wiring) {
        return Err(CheckFault::Lacking(to));
    }
    if let Some(to) = first_unwired(rig, wiring) {
        return Err(CheckFault::Unwired(to));
    }
    Ok(())
}
