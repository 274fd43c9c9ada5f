// The one interface behind which every rig stands: its calls, what they refuse, and what each of them means.
#![tactic(auto)]

ghost use Rattle.std.specs.Prelude.{◌≡◌, ℕ, ◌≤◌, List, length};
ghost use Rattle.rig.specs.Units.{RigUnit};
ghost use Rattle.rig.specs.Laws.{Sound};
ghost use Rattle.rig.specs.Calls.{Called, answer_of, ports, mask, status, put, get, step, save, restore, free};

use cause::RigFault;
use shape::{Ports, Status};

pub mod behaviour;
pub mod cause;
pub mod numbering;
pub mod shape;

/// Units behind one interface; `model` tells what each unit is and holds.
pub trait Rig {
    /// What ports carry; those who use a rig only copy it.
    type Signal: Copy;

    ghost model: { Self → List (RigUnit Self.Signal) };

    /// How many units there are.
    fn units(&self) -> usize
        ensures { result ≡ length (model self.now) };

    /// How many inputs and outputs a unit has.
    fn ports(&self, unit: usize) -> Result<Ports, RigFault>
        ensures { result ≡ answer_of ports (model self.now) unit };

    /// The mask of an output: bit i is set where the output may read input i at the same instant.
    fn mask(&self, unit: usize, port: usize) -> Result<u8, RigFault>
        ensures { result ≡ answer_of (mask port) (model self.now) unit };

    /// Whether a unit is loose, and which of its places are filled.
    fn status(&self, unit: usize) -> Result<Status, RigFault>
        ensures { result ≡ answer_of status (model self.now) unit };

    /// Sets one input.
    fn put(&mut self, unit: usize, port: usize, value: Self::Signal) -> Result<(), RigFault>
        ensures { Called (put port value) (model self.old) unit result (model self.new) };

    /// OUT of one output.
    fn get(&self, unit: usize, port: usize) -> Result<Self::Signal, RigFault>
        ensures { result ≡ answer_of (get port) (model self.now) unit };

    /// Moves a unit by `h` ticks if its BOUND allows that; otherwise leaves it loose. Answers the lesser of `h` and BOUND.
    fn step(&mut self, unit: usize, h: u32) -> Result<u32, RigFault>
        ensures { Called (step h) (model self.old) unit result (model self.new) };

    /// Copies what a unit holds into an empty place.
    fn save(&mut self, unit: usize, place: usize) -> Result<(), RigFault>
        ensures { Called (save place) (model self.old) unit result (model self.new) };

    /// Puts a unit back to what a filled place holds; the place stays filled.
    fn restore(&mut self, unit: usize, place: usize) -> Result<(), RigFault>
        ensures { Called (restore place) (model self.old) unit result (model self.new) };

    /// Empties a filled place.
    fn free(&mut self, unit: usize, place: usize) -> Result<(), RigFault>
        ensures { Called (free place) (model self.old) unit result (model self.new) };

    ghost sound: { (rig : Self) → Sound (model rig) };
}
