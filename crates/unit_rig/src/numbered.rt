// The calls of a rig, of units that stand in a slice and are numbered as they stand there.
ghost use Rattle.std.specs.Prelude.{◌≡◌, map};
ghost use Rattle.rig.specs.Calls.{Call, answer_of, ports, mask, status, put, get, step, save, restore, free};
ghost use Rattle.unit_rig.specs.Lending.{Reads, LeftAs, Changes, Lent};

use super::calls::UnitCalls;
use rig::cause::{Cause, RigFault, Target};
use rig::numbering::blame;
use rig::shape::{Ports, Status};

/// Lends one unit to a function that reads it.
fn read<U: UnitCalls, T, F: FnOnce(&U) -> Result<T, Cause>>(
    units: &[U],
    unit: usize,
    target: Target,
    call: F,
) -> Result<T, RigFault>
    requires { F.IsAlwaysCallable call }
    ensures { (k : Call U.Signal T) → k.target ≡ target → Reads F.FnOnce call U.UnitCalls.model k → result ≡ answer_of k (map U.UnitCalls.model units.now) unit }
{
    let lent = units
        .get(unit)
        .ok_or(RigFault::new(Cause::NoSuch, unit, target))?;
    blame(call(lent), unit, target)
}

/// Lends one unit to a function that changes it.
// Apart from `read`: over `&` and `&mut` there is no generic. For every call that its closure makes: a ghost value of
// a type parameter's type, by which a caller would name the one, is not taken.
// No `get_mut`: what it leaves of a slice that is itself lent has no name that a proof may use.
fn lend<U: UnitCalls, T, F: FnOnce(&mut U) -> Result<T, Cause>>(
    units: &mut [U],
    unit: usize,
    target: Target,
    call: F,
) -> Result<T, RigFault>
    requires { F.IsAlwaysCallable call }
    ensures { (k : Call U.Signal T) → k.target ≡ target → Changes F.FnOnce call U.UnitCalls.model U.UnitCalls.label_of k
        → Lent U.UnitCalls.model U.UnitCalls.label_of k units.old unit result units.new }
{
    if unit >= units.len() {
        return Err(RigFault::new(Cause::NoSuch, unit, target));
    }
    blame(call(&mut units[unit]), unit, target)
}

/// How many inputs and outputs a unit has.
pub fn ports<U: UnitCalls>(units: &[U], unit: usize) -> Result<Ports, RigFault>
    ensures { result ≡ answer_of ports (map U.UnitCalls.model units.now) unit }
{
    read(units, unit, Target::Whole, |lent| Ok(lent.ports()))
}

/// The mask of an output.
pub fn mask<U: UnitCalls>(units: &[U], unit: usize, port: usize) -> Result<u8, RigFault>
    ensures { result ≡ answer_of (mask port) (map U.UnitCalls.model units.now) unit }
{
    read(units, unit, Target::Port(port), |lent| lent.mask(port))
}

/// Whether a unit is loose, and which of its places are filled.
pub fn status<U: UnitCalls>(units: &[U], unit: usize) -> Result<Status, RigFault>
    ensures { result ≡ answer_of status (map U.UnitCalls.model units.now) unit }
{
    read(units, unit, Target::Whole, |lent| Ok(lent.status()))
}

/// Sets one input.
pub fn put<U: UnitCalls>(
    units: &mut [U],
    unit: usize,
    port: usize,
    value: U::Signal,
) -> Result<(), RigFault>
    ensures { Lent U.UnitCalls.model U.UnitCalls.label_of (put port value) units.old unit result units.new }
{
    lend(
        units,
        unit,
        Target::Port(port),
        |lent: &mut U| -> Result<(), Cause>
            ensures { LeftAs U.UnitCalls.model U.UnitCalls.label_of (put port value) lent.old result lent.new }
        { lent.put(port, value) },
    )
}

/// OUT of one output.
pub fn get<U: UnitCalls>(units: &[U], unit: usize, port: usize) -> Result<U::Signal, RigFault>
    ensures { result ≡ answer_of (get port) (map U.UnitCalls.model units.now) unit }
{
    read(units, unit, Target::Port(port), |lent| lent.get(port))
}

/// Moves a unit by `h` ticks if its BOUND allows that; otherwise leaves it loose.
pub fn step<U: UnitCalls>(units: &mut [U], unit: usize, h: u32) -> Result<u32, RigFault>
    ensures { Lent U.UnitCalls.model U.UnitCalls.label_of (step h) units.old unit result units.new }
{
    lend(
        units,
        unit,
        Target::Whole,
        |lent: &mut U| -> Result<u32, Cause>
            ensures { LeftAs U.UnitCalls.model U.UnitCalls.label_of (step h) lent.old result lent.new }
        { lent.step(h) },
    )
}

/// Copies what a unit holds into an empty place.
pub fn save<U: UnitCalls>(units: &mut [U], unit: usize, place: usize) -> Result<(), RigFault>
    ensures { Lent U.UnitCalls.model U.UnitCalls.label_of (save place) units.old unit result units.new }
{
    lend(
        units,
        unit,
        Target::Place(place),
        |lent: &mut U| -> Result<(), Cause>
            ensures { LeftAs U.UnitCalls.model U.UnitCalls.label_of (save place) lent.old result lent.new }
        { lent.save(place) },
    )
}

/// Puts a unit back to what a filled place holds.
pub fn restore<U: UnitCalls>(units: &mut [U], unit: usize, place: usize) -> Result<(), RigFault>
    ensures { Lent U.UnitCalls.model U.UnitCalls.label_of (restore place) units.old unit result units.new }
{
    lend(
        units,
        unit,
        Target::Place(place),
        |lent: &mut U| -> Result<(), Cause>
            ensures { LeftAs U.UnitCalls.model U.UnitCalls.label_of (restore place) lent.old result lent.new }
        { lent.restore(place) },
    )
}

/// Empties a filled place.
pub fn free<U: UnitCalls>(units: &mut [U], unit: usize, place: usize) -> Result<(), RigFault>
    ensures { Lent U.UnitCalls.model U.UnitCalls.label_of (free place) units.old unit result units.new }
{
    lend(
        units,
        unit,
        Target::Place(place),
        |lent: &mut U| -> Result<(), Cause>
            ensures { LeftAs U.UnitCalls.model U.UnitCalls.label_of (free place) lent.old result lent.new }
        { lent.free(place) },
    )
}
