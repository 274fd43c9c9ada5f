ghost use Rattle.std.specs.Prelude.{ℕ, ◌≤◌};

use unit_rig::unit::Unit;

/// One pair of a trip: a value, and for how many ticks it lasts.
#[derive(Clone, Copy)]
pub struct Segment {
    ticks: u32,
    value: i32,
    ghost few: { ticks ≤ 1000000 },
}

/// Where a trip stands: what is left of the present pair, and the number of the first pair after it.
#[derive(Clone, Copy)]
pub struct Position {
    present: Segment,
    later: usize,
}

/// The pairs of a trip.
#[derive(Drop)]
pub struct Trip {
    segments: Vec<Segment>,
}

/// The rig of a trip: one unit that plays it, or none without a pair.
#[derive(Drop)]
pub struct TripRig {
    unit: Option<Unit<(), Trip>>,
}

pub mod calls;
pub mod playing;
pub mod reading;
