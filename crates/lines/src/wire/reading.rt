// Reading a line of a wires file, its fields from the left.
// Each field is taken by `let .. else` and not by `?`: a rule of the project.
ghost use Rattle.std.specs.Prelude.{◌<◌};
ghost use Rattle.file_rig.specs.Table.{names_of};
ghost use Rattle.lines.specs.WireLines.{wire_at, wire_line, EndRead, WireRead};

use super::super::fault::LineFault;
use super::super::text::{field, field_count, name_in, number_within, unit_named};
use super::{End, WireLine};
use file_rig::table::FileRig;

/// A unit's name in one field, and a port in the next.
// The ends stand in fields 2 and 4: below 5 the next field has a number.
fn read_end<'a>(line: &'a [u8], known: &FileRig, number: usize) -> Result<End<'a>, LineFault>
    requires { number < 5 }
    ensures { EndRead (names_of known.now) number line.now result }
{
    let Some(name) = name_in(line, number) else {
        return Err(LineFault::NotName { field: number });
    };
    let Some(_) = unit_named(known, name) else {
        return Err(LineFault::NoUnit { field: number });
    };
    let Some(port) = number_within(field(line, number + 1), 0, 7) else {
        return Err(LineFault::NotNumber { field: number + 1 });
    };
    Ok(End {
        name,
        // Proved to lose nothing: the port is 0 to 7.
        port: port as usize,
    })
}

/// `W,from,output,to,input`, after its letter.
fn read_ends<'a>(line: &'a [u8], known: &FileRig) -> Result<WireLine<'a>, LineFault>
    ensures { WireRead (names_of known.now) result (wire_at (names_of known.now) line.now) }
{
    if field_count(line) != 5 {
        return Err(LineFault::FieldCount);
    }
    let from = read_end(line, known, 2)?;
    let to = read_end(line, known, 4)?;
    Ok(WireLine::Wire { from, to })
}

/// A line of a wires file between units of this rig.
pub fn read_wire<'a>(line: &'a [u8], known: &FileRig) -> Result<WireLine<'a>, LineFault>
    ensures { WireRead (names_of known.now) result (wire_line (names_of known.now) line.now) }
{
    let [letter] = field(line, 1) else {
        return Err(LineFault::Letter);
    };
    match char::from(*letter) {
        'W' => read_ends(line, known),
        _ => Err(LineFault::Letter),
    }
}
