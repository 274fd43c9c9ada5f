// A wire in words.
use names::name::Name;
use std::fmt;

/// An end of a wire by the name of its unit and its port.
#[derive(Clone, Copy)]
pub struct EndText {
    pub name: Name,
    pub port: usize,
}

/// As `draw.0`.
impl fmt::Display for EndText {
    fn fmt<W: fmt::Write>(&self, f: &mut fmt::Formatter<W>) -> fmt::Result {
        write!(f, "{}.{}", self.name, self.port)
    }
}

/// A wire by its ends.
#[derive(Clone, Copy)]
pub struct WireText {
    pub from: EndText,
    pub to: EndText,
}

/// As `wire draw.0 -> net.1`.
impl fmt::Display for WireText {
    fn fmt<W: fmt::Write>(&self, f: &mut fmt::Formatter<W>) -> fmt::Result {
        write!(f, "wire {} -> {}", self.from, self.to)
    }
}
