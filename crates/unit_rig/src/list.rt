// A rig of units in one list, numbered as they stand there.
ghost use Rattle.std.specs.Prelude.{◌≡◌, ◌≤◌, [], map, length, take, vec_len};
ghost use Rattle.rig.specs.Calls.{Called, put, step, save, restore, free};
ghost use Rattle.unit_rig.specs.declared.list.PushFault.TheVariants.{NoMemory};
ghost use Rattle.unit_rig.specs.Lending.{Lent};
ghost use Rattle.unit_rig.specs.Pushing.{Pushed};
ghost use Rattle.unit_rig.specs.Soundness.{sound_list};

use super::calls::UnitCalls;
use super::numbered;
use rig::Rig;
use rig::cause::RigFault;
use rig::shape::{Ports, Status};
use std::alloc::AllocFailed;
use thiserror::Error;

/// Up to 16 units in one list, numbered as they stand there.
#[derive(Drop)]
pub struct UnitRig<U: UnitCalls> {
    units: Vec<U>,
    ghost few: { vec_len units ≤ 16 },
}

/// Why a unit is not taken into a list.
#[derive(Clone, Copy, PartialEq, Eq, Debug, Error)]
pub enum PushFault {
    /// The list has 16 units.
    #[error("the list has 16 units")]
    Full,
    /// There is no memory for one more unit.
    #[error("there is no memory for one more unit")]
    NoMemory,
}

/// Want of memory.
impl<T: Drop> From<AllocFailed<T>> for PushFault {
    ghost from_gives = { λ _ fault. fault ≡ NoMemory };

    fn from(_: AllocFailed<T>) -> PushFault {
        PushFault::NoMemory
    }
}

impl<U: UnitCalls> UnitRig<U> {
    /// The units of a list, up to the sixteenth.
    pub fn from_units(mut units: Vec<U>) -> UnitRig<U>
        ensures { result.units.items ≡ take 16 units.items }
    {
        units.truncate(16);
        UnitRig { units }
    }

    /// Lets every unit go.
    pub fn clear(&mut self)
        ensures { self.new.units.items ≡ [] }
    {
        self.units.clear();
    }

    /// The units, by their numbers.
    pub fn as_slice(&self) -> &[U]
        ensures { result.now ≡ self.now.units.items }
    {
        &self.units
    }

    /// Takes one unit more, and answers its number. A refusal leaves the list as it was.
    pub fn push(&mut self, unit: U) -> Result<usize, PushFault>
        ensures { Pushed self.old.units.items unit result self.new.units.items }
    {
        let number = self.units.len();
        if number >= 16 {
            return Err(PushFault::Full);
        }
        self.units.push(unit)?;
        Ok(number)
    }
}

/// No call changes a label.
impl<U: UnitCalls> Rig for UnitRig<U> {
    type Signal = U::Signal;

    ghost model = { λ s. map U.UnitCalls.model s.units.items };

    ghost sound = { λ s. sound_list U.UnitCalls.model U.UnitCalls.sound s.units.items s.units.ok.0 s.few };

    fn units(&self) -> usize {
        self.units.len()
    }

    fn ports(&self, unit: usize) -> Result<Ports, RigFault> {
        numbered::ports(&self.units, unit)
    }

    fn mask(&self, unit: usize, port: usize) -> Result<u8, RigFault> {
        numbered::mask(&self.units, unit, port)
    }

    fn status(&self, unit: usize) -> Result<Status, RigFault> {
        numbered::status(&self.units, unit)
    }

    fn put(&mut self, unit: usize, port: usize, value: U::Signal) -> Result<(), RigFault>
        ensures { Lent U.UnitCalls.model U.UnitCalls.label_of (put port value) self.old.units.items unit result self.new.units.items }
    {
        numbered::put(&mut self.units, unit, port, value)
    }

    fn get(&self, unit: usize, port: usize) -> Result<U::Signal, RigFault> {
        numbered::get(&self.units, unit, port)
    }

    fn step(&mut self, unit: usize, h: u32) -> Result<u32, RigFault>
        ensures { Lent U.UnitCalls.model U.UnitCalls.label_of (step h) self.old.units.items unit result self.new.units.items }
    {
        numbered::step(&mut self.units, unit, h)
    }

    fn save(&mut self, unit: usize, place: usize) -> Result<(), RigFault>
        ensures { Lent U.UnitCalls.model U.UnitCalls.label_of (save place) self.old.units.items unit result self.new.units.items }
    {
        numbered::save(&mut self.units, unit, place)
    }

    fn restore(&mut self, unit: usize, place: usize) -> Result<(), RigFault>
        ensures { Lent U.UnitCalls.model U.UnitCalls.label_of (restore place) self.old.units.items unit result self.new.units.items }
    {
        numbered::restore(&mut self.units, unit, place)
    }

    fn free(&mut self, unit: usize, place: usize) -> Result<(), RigFault>
        ensures { Lent U.UnitCalls.model U.UnitCalls.label_of (free place) self.old.units.items unit result self.new.units.items }
    {
        numbered::free(&mut self.units, unit, place)
    }
}
