// What a line of a units file says of its unit.
ghost use Rattle.std.specs.Prelude.{◌≡◌};
ghost use Rattle.lines.specs.UnitLines.{unit_said};

use super::UnitLine;
use kinds::design::Design;

impl<'a> UnitLine<'a> {
    /// The unit's name.
    pub fn name(&self) -> &'a [u8]
        ensures { result.now ≡ (unit_said self.now).name }
    {
        match *self {
            UnitLine::Integrator { name, .. }
            | UnitLine::Gain { name, .. }
            | UnitLine::Constant { name, .. } => name,
        }
    }

    /// The unit's design.
    pub fn design(&self) -> Design
        ensures { result ≡ (unit_said self.now).design }
    {
        match *self {
            UnitLine::Integrator { x, lo, hi, m, .. } => Design::Integrator { x, lo, hi, m },
            UnitLine::Gain { a, b, c, .. } => Design::Gain { a, b, c },
            UnitLine::Constant { v, .. } => Design::Constant { v },
        }
    }
}
