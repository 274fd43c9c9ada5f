// A pair behind the interface of a rig.
ghost use Rattle.pair_rig.specs.Joined.{joined};
ghost use Rattle.pair_rig.specs.Joining.{sound_joined};

use super::Pair;
use super::owner::Owner;
use rig::Rig;
use rig::cause::{RigFault, Target};
use rig::numbering::renumber;
use rig::shape::{Ports, Status};

/// Units of the second rig follow those of the first. A fault names the unit as the pair numbers it.
// Each call chooses its rig by a `match`: a choice that takes closures would take two of them a call, which reads no plainer.
#[tactic(auto, using(crate::specs::Joining::joining))]
impl<P: Rig, Q: Rig<Signal = P::Signal>> Rig for Pair<P, Q> {
    type Signal = P::Signal;

    ghost model = { λ s. joined (P.Rig.model s.first) (Q.Rig.model s.second) };

    ghost sound = { λ s. sound_joined (P.Rig.model s.first) (Q.Rig.model s.second) (P.Rig.sound s.first) (Q.Rig.sound s.second) };

    fn units(&self) -> usize {
        (self.first.units() + self.second.units()).min(16)
    }

    fn ports(&self, unit: usize) -> Result<Ports, RigFault> {
        match self.owner(unit, Target::Whole)? {
            Owner::First => self.first.ports(unit),
            Owner::Second(inner) => renumber(self.second.ports(inner), unit),
        }
    }

    fn mask(&self, unit: usize, port: usize) -> Result<u8, RigFault> {
        match self.owner(unit, Target::Port(port))? {
            Owner::First => self.first.mask(unit, port),
            Owner::Second(inner) => renumber(self.second.mask(inner, port), unit),
        }
    }

    fn status(&self, unit: usize) -> Result<Status, RigFault> {
        match self.owner(unit, Target::Whole)? {
            Owner::First => self.first.status(unit),
            Owner::Second(inner) => renumber(self.second.status(inner), unit),
        }
    }

    fn put(&mut self, unit: usize, port: usize, value: P::Signal) -> Result<(), RigFault> {
        match self.owner(unit, Target::Port(port))? {
            Owner::First => self.first.put(unit, port, value),
            Owner::Second(inner) => renumber(self.second.put(inner, port, value), unit),
        }
    }

    fn get(&self, unit: usize, port: usize) -> Result<P::Signal, RigFault> {
        match self.owner(unit, Target::Port(port))? {
            Owner::First => self.first.get(unit, port),
            Owner::Second(inner) => renumber(self.second.get(inner, port), unit),
        }
    }

    fn step(&mut self, unit: usize, h: u32) -> Result<u32, RigFault> {
        match self.owner(unit, Target::Whole)? {
            Owner::First => self.first.step(unit, h),
            Owner::Second(inner) => renumber(self.second.step(inner, h), unit),
        }
    }

    fn save(&mut self, unit: usize, place: usize) -> Result<(), RigFault> {
        match self.owner(unit, Target::Place(place))? {
            Owner::First => self.first.save(unit, place),
            Owner::Second(inner) => renumber(self.second.save(inner, place), unit),
        }
    }

    fn restore(&mut self, unit: usize, place: usize) -> Result<(), RigFault> {
        match self.owner(unit, Target::Place(place))? {
            Owner::First => self.first.restore(unit, place),
            Owner::Second(inner) => renumber(self.second.restore(inner, place), unit),
        }
    }

    fn free(&mut self, unit: usize, place: usize) -> Result<(), RigFault> {
        match self.owner(unit, Target::Place(place))? {
            Owner::First => self.first.free(unit, place),
            Owner::Second(inner) => renumber(self.second.free(inner, place), unit),
        }
    }
}
