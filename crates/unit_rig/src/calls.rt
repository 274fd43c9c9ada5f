// The calls of a rig, of one unit alone.
ghost use Rattle.std.specs.Prelude.{◌≡◌};
ghost use Rattle.rig.specs.Units.{RigUnit};
ghost use Rattle.rig.specs.Laws.{SoundUnit};
ghost use Rattle.rig.specs.Calls.{ports_of, status_of, mask, put, get, step, save, restore, free};
ghost use Rattle.unit_rig.specs.Lending.{LeftAs};

use rig::cause::Cause;
use rig::shape::{Ports, Status};

/// One unit; `model` tells what it is and holds. No call changes its label.
pub trait UnitCalls: Drop {
    /// What ports carry.
    type Signal: Copy;

    /// What the unit is called by.
    type Label: Copy;

    ghost model: { Self → RigUnit Self.Signal };

    ghost label_of: { Self → Self.Label };

    /// The label.
    fn label(&self) -> Self::Label
        ensures { result ≡ label_of self.now };

    /// How many inputs and outputs the unit has.
    fn ports(&self) -> Ports
        ensures { result ≡ ports_of (model self.now) };

    /// The mask of an output.
    fn mask(&self, port: usize) -> Result<u8, Cause>
        ensures { result ≡ (mask port).answer (model self.now) };

    /// Whether the unit is loose, and which of its places are filled.
    fn status(&self) -> Status
        ensures { result ≡ status_of (model self.now).held (model self.now).places };

    /// Sets one input.
    fn put(&mut self, port: usize, value: Self::Signal) -> Result<(), Cause>
        ensures { LeftAs model label_of (put port value) self.old result self.new };

    /// OUT of one output.
    fn get(&self, port: usize) -> Result<Self::Signal, Cause>
        ensures { result ≡ (get port).answer (model self.now) };

    /// Moves the unit by `h` ticks if its BOUND allows that; otherwise leaves it loose.
    fn step(&mut self, h: u32) -> Result<u32, Cause>
        ensures { LeftAs model label_of (step h) self.old result self.new };

    /// Copies what the unit holds into an empty place.
    fn save(&mut self, place: usize) -> Result<(), Cause>
        ensures { LeftAs model label_of (save place) self.old result self.new };

    /// Puts the unit back to what a filled place holds.
    fn restore(&mut self, place: usize) -> Result<(), Cause>
        ensures { LeftAs model label_of (restore place) self.old result self.new };

    /// Empties a filled place.
    fn free(&mut self, place: usize) -> Result<(), Cause>
        ensures { LeftAs model label_of (free place) self.old result self.new };

    ghost sound: { (unit : Self) → SoundUnit (model unit) };
}
