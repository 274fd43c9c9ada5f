// A rig under a limit behind the interface of a rig.
ghost use Rattle.std.specs.Prelude.{◌≡◌, false, is_some, slice_index_or};
ghost use Rattle.std.specs.List.{slice_get};
ghost use Rattle.limit_rig.specs.Limits.{units_under, input_in, output_in, UnflaggedBy};
ghost use Rattle.limit_rig.specs.Covering.{sound_under};

use super::Limit;
use super::causes::{loose_if, step_cause};
use rig::Rig;
use rig::cause::{RigFault, Target};
use rig::shape::{Ports, Status};

impl<R: Rig> Limit<R> {
    /// Whether a unit is loose by its flag.
    fn is_flagged(&self, unit: usize) -> bool
        ensures { result ≡ slice_index_or self.now.flags unit false }
    {
        self.flags.get(unit).copied().unwrap_or(false)
    }

    /// Refuses a unit that is loose by its flag, by whether what was asked for is there.
    // A closure says whether it is, so that only a refusal asks the rig below, which may itself be a limit over others.
    fn unflagged<F: FnOnce() -> bool>(
        &self,
        unit: usize,
        target: Target,
        there: F,
    ) -> Result<(), RigFault>
        requires { F.IsAlwaysCallable there }
        ensures { UnflaggedBy (F.post there) self.now.flags unit target result }
    {
        if self.is_flagged(unit) {
            return Err(RigFault::new(loose_if(there()), unit, target));
        }
        Ok(())
    }

    /// Whether there is such a unit.
    #[tactic(auto, using(std::proofs::lemmas::Option::slice_get_past, std::proofs::lemmas::Option::slice_get_within))]
    fn has_unit(&self, unit: usize) -> bool
        ensures { result ≡ is_some (slice_get (R.Rig.model self.now.below) unit) }
    {
        unit < self.below.units()
    }

    /// Whether a unit has this input.
    // Apart from `has_output`: one function of both would take the count as a closure, and its contract both definitions.
    fn has_input(&self, unit: usize, port: usize) -> bool
        ensures { result ≡ input_in port (slice_get (R.Rig.model self.now.below) unit) }
    {
        self.below
            .ports(unit)
            .is_ok_and(|ports| port < ports.inputs)
    }

    /// Whether a unit has this output.
    fn has_output(&self, unit: usize, port: usize) -> bool
        ensures { result ≡ output_in port (slice_get (R.Rig.model self.now.below) unit) }
    {
        self.below
            .ports(unit)
            .is_ok_and(|ports| port < ports.outputs)
    }
}

/// The units below, BOUND of each being at most the limit. A step above the limit leaves a unit loose.
#[tactic(auto, using(crate::specs::Limiting::limiting))]
impl<R: Rig> Rig for Limit<R> {
    type Signal = R::Signal;

    ghost model = { λ s. units_under s.most s.flags (R.Rig.model s.below) };

    ghost sound = { λ s. sound_under s.most s.flags (R.Rig.model s.below) (R.Rig.sound s.below) };

    fn units(&self) -> usize {
        self.below.units()
    }

    fn ports(&self, unit: usize) -> Result<Ports, RigFault> {
        self.below.ports(unit)
    }

    fn mask(&self, unit: usize, port: usize) -> Result<u8, RigFault> {
        self.below.mask(unit, port)
    }

    /// Loose by the flag or below; the places are those below.
    fn status(&self, unit: usize) -> Result<Status, RigFault> {
        let flag = self.is_flagged(unit);
        let status = self.below.status(unit)?;
        Ok(Status {
            loose: flag || status.loose,
            ..status
        })
    }

    /// Sets an input below, unless the flag is set.
    fn put(&mut self, unit: usize, port: usize, value: R::Signal) -> Result<(), RigFault> {
        self.unflagged(unit, Target::Port(port), || self.has_input(unit, port))?;
        self.below.put(unit, port, value)
    }

    /// Reads an output below, unless the flag is set.
    fn get(&self, unit: usize, port: usize) -> Result<R::Signal, RigFault> {
        self.unflagged(unit, Target::Port(port), || self.has_output(unit, port))?;
        self.below.get(unit, port)
    }

    /// Steps the unit below. A step above the limit takes the limit there, whose answer is the lesser bound, and sets the flag.
    fn step(&mut self, unit: usize, h: u32) -> Result<u32, RigFault> {
        if self.is_flagged(unit) {
            let cause = step_cause(self.has_unit(unit), h);
            return Err(RigFault::new(cause, unit, Target::Whole));
        }
        if self.most < h && h <= 1_000_000 {
            let bound = self.below.step(unit, self.most)?;
            self.flags[unit] = true;
            return Ok(bound);
        }
        self.below.step(unit, h)
    }

    /// Saves below, unless the flag is set.
    fn save(&mut self, unit: usize, place: usize) -> Result<(), RigFault> {
        self.unflagged(unit, Target::Place(place), || {
            self.has_unit(unit) && place < 4
        })?;
        self.below.save(unit, place)
    }

    /// Restores below, and clears the flag.
    fn restore(&mut self, unit: usize, place: usize) -> Result<(), RigFault> {
        self.below.restore(unit, place)?;
        self.flags[unit] = false;
        Ok(())
    }

    fn free(&mut self, unit: usize, place: usize) -> Result<(), RigFault> {
        self.below.free(unit, place)
    }
}
