/// One end of a wire: the unit's name, which is a part of the file's bytes, and the port.
#[derive(Clone, Copy)]
pub struct End<'a> {
    pub name: &'a [u8],
    pub port: usize,
}

/// A line of a wires file.
// An enum, though of one case: that lines are an enum whose names borrow the file is a rule of the project.
#[derive(Clone, Copy)]
pub enum WireLine<'a> {
    /// From an output of one unit to an input of another.
    Wire { from: End<'a>, to: End<'a> },
}

pub mod ends;
pub mod reading;
