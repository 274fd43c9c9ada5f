ghost use Rattle.std.specs.Prelude.{◌≡◌, ℕ, ◌≤◌, length};

use rig::Rig;

/// A rig whose steps are held to a limit; a flag marks a unit that a step above the limit left loose.
// The flags are an array beside the rig: units lie below, and that there are at most 16 is a rule of the project. The limit is
// no type of its own: `Limit` alone has it, and an integrator's most ticks, with the same bounds, are a parameter of a design.
#[derive(Drop)]
pub struct Limit<R: Rig> {
    below: R,
    most: u32,
    flags: [bool; 16],
    ghost some: { 1 ≤ most },
    ghost few: { most ≤ 1000000 },
    ghost whole: { length flags ≡ 16 },
}

pub mod calls;
mod causes;
pub mod making;
