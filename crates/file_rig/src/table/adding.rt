// Making a file rig, unit by unit, and finding units by name.
ghost use Rattle.std.specs.Prelude.{◌≡◌, ◌≤◌, [], length, nat_lt};
ghost use Rattle.file_rig.specs.Table.{units_of, names_of, name_at};
ghost use Rattle.file_rig.specs.Adding.{FoundAt, Added};
ghost use Rattle.file_rig.specs.Describing.{Described};

use super::FileRig;
use super::fault::AddFault;
use kinds::body::Body;
use kinds::design::Design;
use names::name::Name;
use rig::cause::{Cause, RigFault, Target};
use std::alloc::Global;
use unit_rig::calls::UnitCalls;
use unit_rig::list::UnitRig;
use unit_rig::unit::Unit;

impl FileRig {
    /// A rig without units.
    pub fn new(heap: Global) -> FileRig
        ensures units { units_of result ≡ [] }
        ensures names { names_of result ≡ [] }
    {
        let table = UnitRig::from_units(Vec::new(heap));
        FileRig { table }
    }

    /// Lets every unit go.
    pub fn clear(&mut self)
        ensures units { units_of self.new ≡ [] }
        ensures names { names_of self.new ≡ [] }
    {
        self.table.clear();
    }

    /// Whether there is room for one more unit.
    pub fn has_room(&self) -> bool
        ensures { result ≡ nat_lt (length (names_of self.now)) 16 }
    {
        self.table.as_slice().len() < 16
    }

    /// The name of a unit.
    pub fn name(&self, unit: usize) -> Option<Name>
        ensures { result ≡ name_at self.now unit }
    {
        Some(self.table.as_slice().get(unit)?.label())
    }

    /// What a unit is and how it stands: the design by which it would be made now.
    #[tactic(auto, using(crate::proofs::Describing::described))]
    pub fn design(&self, unit: usize) -> Result<Design, RigFault>
        ensures { Described (units_of self.now) unit result }
    {
        let units = self.table.as_slice();
        let record = units
            .get(unit)
            .ok_or(RigFault::new(Cause::NoSuch, unit, Target::Whole))?;
        let body = record
            .contents()
            .ok_or(RigFault::new(Cause::Loose, unit, Target::Whole))?;
        Ok(body.design())
    }

    /// The number of the unit with this name.
    #[tactic(auto, using(crate::proofs::Finding::found_first))]
    pub fn find(&self, name: &[u8]) -> Option<usize>
        ensures { FoundAt (names_of self.now) name.now result }
    {
        self.table
            .as_slice()
            .iter()
            .position(|record| record.label().is(name))
    }

    /// Adds a unit, and answers its number.
    pub fn add(&mut self, name: &[u8], design: Design) -> Result<usize, AddFault>
        ensures { Added self.old name.now design result self.new }
    {
        if !self.has_room() {
            return Err(AddFault::TableFull);
        }
        let proper = Name::new(name).ok_or(AddFault::BadName)?;
        if self.find(name).is_some() {
            return Err(AddFault::NameUsed);
        }
        let body = Body::new(design)?;
        match Unit::new(proper, body.kind(), body) {
            Some(unit) => Ok(self.table.push(unit)?),
            None => unreachable(),
        }
    }
}
