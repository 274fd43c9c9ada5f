// Parameters of a design that have bounds of their own. Not one struct with the bounds as const parameters:
// a struct with a ghost field takes no signed ones.
ghost use Rattle.std.specs.Prelude.{ℕ, ◌≤◌, pos, negsuc, ◌≤ℤ◌};

/// A factor of a gain: −1,000 to 1,000.
#[derive(Clone, Copy, PartialEq, Eq, Debug)]
pub(crate) struct Factor {
    pub(crate) value: i32,
    ghost above: { negsuc 999 ≤ℤ value },
    ghost below: { value ≤ℤ pos 1000 },
}

/// The longest step that an integrator takes: 1 to 1,000,000 ticks.
#[derive(Clone, Copy, PartialEq, Eq, Debug)]
pub(crate) struct StepLimit {
    pub(crate) ticks: u32,
    ghost some: { 1 ≤ ticks },
    ghost few: { ticks ≤ 1000000 },
}

pub mod rules;
