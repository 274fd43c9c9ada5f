// The first line of a file, which tells what the file is.
ghost use Rattle.std.specs.Prelude.{◌≡◌};
ghost use Rattle.lines.specs.Headers.{cap_of, is_wires};

use super::text::{field, field_count, number_within};

/// The cap that the first line of a units file tells, `UNITS,1,cap`.
pub fn read_cap(line: &[u8]) -> Option<u32>
    ensures { result ≡ cap_of line.now }
{
    if field_count(line) != 3 {
        return None;
    }
    if field(line, 1) != b"UNITS".as_slice() || field(line, 2) != b"1".as_slice() {
        return None;
    }
    let cap = number_within(field(line, 3), 1, 1_000_000)?;
    Some(cap.unsigned_abs())
}

/// Whether this is the first line of a wires file, `WIRES,1`.
pub fn is_wires(line: &[u8]) -> bool
    ensures { result ≡ is_wires line.now }
{
    line == b"WIRES,1".as_slice()
}
