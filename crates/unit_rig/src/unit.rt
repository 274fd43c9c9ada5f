// One unit: its label, its rules and what it holds.
ghost use Rattle.std.specs.Prelude.{◌≡◌, true, false, MatchOption};
ghost use Rattle.memory.specs.Kept.{Fresh};
ghost use Rattle.memory.specs.Kept.{unit_from};
ghost use Rattle.unit_rig.specs.Own.{own_in, all_own};
ghost use Rattle.unit_rig.specs.Soundness.{sound_unit};

use super::calls::UnitCalls;
use memory::store::Memory;
use rig::behaviour::Behaviour;
use rig::cause::Cause;
use rig::shape::{Ports, Status};

/// A unit that keeps what it holds in a memory. All contents there are its own.
#[derive(Drop)]
pub struct Unit<L: Copy, B: Behaviour> {
    label: L,
    behaviour: B,
    memory: Memory<B::Contents>,
    ghost holds: { own_in (B.Behaviour.owns behaviour) memory.held ≡ true },
    ghost keeps: { all_own (B.Behaviour.owns behaviour) memory.places ≡ true },
}

impl<L: Copy, B: Behaviour + Drop> UnitCalls for Unit<L, B> {
    type Signal = B::Signal;

    type Label = L;

    ghost model = { λ s. unit_from (B.Behaviour.rules s.behaviour) (B.Behaviour.read s.behaviour) s.memory };

    ghost label_of = { λ s. s.label };

    ghost sound = { λ s. sound_unit (B.Behaviour.rules s.behaviour) (B.Behaviour.read s.behaviour) (B.Behaviour.owns s.behaviour) (B.Behaviour.sound s.behaviour) (B.Behaviour.suits s.behaviour) s.memory s.holds s.keeps };

    fn label(&self) -> L {
        self.label
    }

    fn ports(&self) -> Ports {
        Ports {
            inputs: self.behaviour.inputs(),
            outputs: self.behaviour.outputs(),
        }
    }

    fn mask(&self, port: usize) -> Result<u8, Cause> {
        self.behaviour.mask(port).ok_or(Cause::NoSuch)
    }

    fn status(&self) -> Status {
        self.memory.status()
    }

    fn put(&mut self, port: usize, value: B::Signal) -> Result<(), Cause> {
        if port >= self.behaviour.inputs() {
            return Err(Cause::NoSuch);
        }
        let contents = self.memory.held.ok_or(Cause::Loose)?;
        self.memory.held = Some(self.behaviour.feed(contents, port, value));
        Ok(())
    }

    fn get(&self, port: usize) -> Result<B::Signal, Cause> {
        if port >= self.behaviour.outputs() {
            return Err(Cause::NoSuch);
        }
        let contents = self.memory.held.ok_or(Cause::Loose)?;
        Ok(self.behaviour.out(contents, port))
    }

    fn step(&mut self, h: u32) -> Result<u32, Cause> {
        if !(1..=1_000_000).contains(&h) {
            return Err(Cause::StepRange);
        }
        let contents = self.memory.held.ok_or(Cause::Loose)?;
        self.memory.held = self.behaviour.next(contents, h);
        Ok(h.min(self.behaviour.bound(contents)))
    }

    #[tactic(auto, using(crate::proofs::Keeping::place_set))]
    fn save(&mut self, place: usize) -> Result<(), Cause> {
        self.memory.save(place)
    }

    fn restore(&mut self, place: usize) -> Result<(), Cause> {
        self.memory.restore(place)
    }

    #[tactic(auto, using(crate::proofs::Keeping::place_set))]
    fn free(&mut self, place: usize) -> Result<(), Cause> {
        self.memory.free(place)
    }
}

impl<L: Copy, B: Behaviour + Drop> Unit<L, B> {
    /// A new unit: in place, all places empty. None where the contents are not its own.
    pub fn new(label: L, behaviour: B, contents: B::Contents) -> Option<Unit<L, B>>
        ensures { MatchOption result (B.Behaviour.owns behaviour contents ≡ false)
            (λ x. (B.Behaviour.owns behaviour contents ≡ true) × (x.label ≡ label) × (x.behaviour ≡ behaviour) × Fresh contents x.memory) }
    {
        // No `then`: in its closure the proof does not know that the contents are the unit's own.
        if !behaviour.fits(contents) {
            return None;
        }
        Some(Unit {
            label,
            behaviour,
            memory: Memory::new(contents),
        })
    }

    /// What the unit holds; none while it is loose.
    pub fn contents(&self) -> Option<B::Contents>
        ensures { result ≡ self.now.memory.held }
    {
        let memory = &self.memory;
        memory.held
    }
}
