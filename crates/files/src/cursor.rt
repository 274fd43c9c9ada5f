ghost use Rattle.std.specs.Prelude.{◌+◌, ◌≤◌, length};

/// A place in the bytes of a file, and the number of the line that begins there, from 1.
#[derive(Drop)]
pub struct Cursor<'a> {
    bytes: &'a [u8],
    at: usize,
    line: usize,
    ghost within: { at ≤ length bytes.now },
    ghost counted: { line ≤ at + 1 },
}

pub mod heading;
pub mod moving;
pub mod place;
pub mod reading;
