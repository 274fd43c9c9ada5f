// A file rig behind the interface of a rig.
ghost use Rattle.rig.specs.Calls.{put, step, save, restore, free};
ghost use Rattle.file_rig.specs.Table.{units_of, CalledUnderNames};
ghost use Rattle.file_rig.specs.Soundness.{sound_table};

use super::FileRig;
use rig::Rig;
use rig::cause::RigFault;
use rig::shape::{Ports, Status};

/// Each call is the table's; what a file rig adds are the names, and no call changes one.
// Not an alias of `UnitRig`: what `adding` has are methods, and a type of another crate takes none.
impl Rig for FileRig {
    type Signal = i32;

    ghost model = { units_of };

    ghost sound = { sound_table };

    fn units(&self) -> usize {
        self.table.units()
    }

    fn ports(&self, unit: usize) -> Result<Ports, RigFault> {
        self.table.ports(unit)
    }

    fn mask(&self, unit: usize, port: usize) -> Result<u8, RigFault> {
        self.table.mask(unit, port)
    }

    fn status(&self, unit: usize) -> Result<Status, RigFault> {
        self.table.status(unit)
    }

    fn put(&mut self, unit: usize, port: usize, value: i32) -> Result<(), RigFault>
        ensures { CalledUnderNames (put port value) self.old unit result self.new }
    {
        self.table.put(unit, port, value)
    }

    fn get(&self, unit: usize, port: usize) -> Result<i32, RigFault> {
        self.table.get(unit, port)
    }

    fn step(&mut self, unit: usize, h: u32) -> Result<u32, RigFault>
        ensures { CalledUnderNames (step h) self.old unit result self.new }
    {
        self.table.step(unit, h)
    }

    fn save(&mut self, unit: usize, place: usize) -> Result<(), RigFault>
        ensures { CalledUnderNames (save place) self.old unit result self.new }
    {
        self.table.save(unit, place)
    }

    fn restore(&mut self, unit: usize, place: usize) -> Result<(), RigFault>
        ensures { CalledUnderNames (restore place) self.old unit result self.new }
    {
        self.table.restore(unit, place)
    }

    fn free(&mut self, unit: usize, place: usize) -> Result<(), RigFault>
        ensures { CalledUnderNames (free place) self.old unit result self.new }
    {
        self.table.free(unit, place)
    }
}
