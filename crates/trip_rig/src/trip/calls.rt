// A trip behind the interface of a rig.
ghost use Rattle.trip_rig.specs.Rigs.{units_of, sound_trip};

use super::TripRig;
use rig::Rig;
use rig::cause::RigFault;
use rig::shape::{Ports, Status};
use unit_rig::numbered;

/// Each call is that of a slice of the one unit, or of none.
#[tactic(auto, using(unit_rig::proofs::Listing::called_one))]
impl Rig for TripRig {
    type Signal = i32;

    ghost model = { units_of };

    ghost sound = { sound_trip };

    fn units(&self) -> usize {
        self.unit.as_slice().len()
    }

    fn ports(&self, unit: usize) -> Result<Ports, RigFault> {
        numbered::ports(self.unit.as_slice(), unit)
    }

    fn mask(&self, unit: usize, port: usize) -> Result<u8, RigFault> {
        numbered::mask(self.unit.as_slice(), unit, port)
    }

    fn status(&self, unit: usize) -> Result<Status, RigFault> {
        numbered::status(self.unit.as_slice(), unit)
    }

    fn put(&mut self, unit: usize, port: usize, value: i32) -> Result<(), RigFault> {
        numbered::put(self.unit.as_mut_slice(), unit, port, value)
    }

    fn get(&self, unit: usize, port: usize) -> Result<i32, RigFault> {
        numbered::get(self.unit.as_slice(), unit, port)
    }

    fn step(&mut self, unit: usize, h: u32) -> Result<u32, RigFault> {
        numbered::step(self.unit.as_mut_slice(), unit, h)
    }

    fn save(&mut self, unit: usize, place: usize) -> Result<(), RigFault> {
        numbered::save(self.unit.as_mut_slice(), unit, place)
    }

    fn restore(&mut self, unit: usize, place: usize) -> Result<(), RigFault> {
        numbered::restore(self.unit.as_mut_slice(), unit, place)
    }

    fn free(&mut self, unit: usize, place: usize) -> Result<(), RigFault> {
        numbered::free(self.unit.as_mut_slice(), unit, place)
    }
}
