// A unit in words.
use kinds::design::Design;
use names::name::Name;
use std::fmt;

/// A unit by its number and name, with what it is and how it stands.
#[derive(Clone, Copy)]
pub struct UnitText {
    pub number: usize,
    pub name: Name,
    pub design: Design,
}

/// As `unit 2 = integrator tank: x 5, lo 0, hi 20, m 100`.
impl fmt::Display for UnitText {
    fn fmt<W: fmt::Write>(&self, f: &mut fmt::Formatter<W>) -> fmt::Result {
        let name = self.name;
        write!(f, "unit {} = ", self.number)?;
        match self.design {
            Design::Integrator { x, lo, hi, m } => {
                write!(f, "integrator {name}: x {x}, lo {lo}, hi {hi}, m {m}")
            }
            Design::Gain { a, b, c } => write!(f, "gain {name}: a {a}, b {b}, c {c}"),
            Design::Constant { v } => write!(f, "constant {name}: v {v}"),
        }
    }
}
