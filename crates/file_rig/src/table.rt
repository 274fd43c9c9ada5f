use kinds::kind::Kind;
use names::name::Name;
use unit_rig::list::UnitRig;
use unit_rig::unit::Unit;

/// A rig of up to 16 units in one table, numbered in the order in which they were added. Each is called by its name.
#[derive(Drop)]
pub struct FileRig {
    table: UnitRig<Unit<Name, Kind>>,
}

pub mod adding;
pub mod calls;
pub mod fault;
