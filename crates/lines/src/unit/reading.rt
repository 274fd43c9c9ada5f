// Reading a line of a units file, its fields from the left.
// Each field is taken by `let .. else` and not by `?`: a rule of the project.
ghost use Rattle.std.specs.Prelude.{◌≡◌, ℕ};
ghost use Rattle.file_rig.specs.Table.{names_of};
ghost use Rattle.lines.specs.UnitLines.{kind_of_letter, fields_of, integrator_at, gain_at, constant_at, with_name, unit_line, unit_read};

use super::super::fault::LineFault;
use super::super::text::{field, field_count, name_in, number_within, unit_named};
use super::UnitLine;
use file_rig::table::FileRig;
use kinds::kind::Kind;
use numerals::number::number;

/// The kind of unit that a letter stands for.
fn kind_of(letter: &[u8]) -> Option<Kind>
    ensures { result ≡ kind_of_letter letter.now }
{
    let [byte] = letter else {
        return None;
    };
    match char::from(*byte) {
        'I' => Some(Kind::Integrator),
        'G' => Some(Kind::Gain),
        'K' => Some(Kind::Constant),
        _ => None,
    }
}

/// How many fields a line has whose letter stands for this kind.
fn fields_of(kind: Kind) -> usize
    ensures { result ≡ fields_of kind }
{
    match kind {
        Kind::Integrator => 6,
        Kind::Gain => 5,
        Kind::Constant => 3,
    }
}

/// `I,name,x,lo,hi,m`, from x on.
fn read_integrator<'a>(line: &'a [u8], name: &'a [u8]) -> Result<UnitLine<'a>, LineFault>
    ensures { unit_read result ≡ with_name name.now (integrator_at line.now) }
{
    let Some(x) = number(field(line, 3)) else {
        return Err(LineFault::NotNumber { field: 3 });
    };
    let Some(lo) = number(field(line, 4)) else {
        return Err(LineFault::NotNumber { field: 4 });
    };
    let Some(hi) = number(field(line, 5)) else {
        return Err(LineFault::NotNumber { field: 5 });
    };
    let Some(m) = number_within(field(line, 6), 1, 1_000_000) else {
        return Err(LineFault::NotNumber { field: 6 });
    };
    // No `contains`: with it two goals stayed open.
    if x < lo || x > hi {
        return Err(LineFault::Disagree);
    }
    Ok(UnitLine::Integrator {
        name,
        x,
        lo,
        hi,
        m: m.unsigned_abs(),
    })
}

/// `G,name,a,b,c`, from a on.
fn read_gain<'a>(line: &'a [u8], name: &'a [u8]) -> Result<UnitLine<'a>, LineFault>
    ensures { unit_read result ≡ with_name name.now (gain_at line.now) }
{
    let Some(a) = number_within(field(line, 3), -1000, 1000) else {
        return Err(LineFault::NotNumber { field: 3 });
    };
    let Some(b) = number_within(field(line, 4), -1000, 1000) else {
        return Err(LineFault::NotNumber { field: 4 });
    };
    let Some(c) = number(field(line, 5)) else {
        return Err(LineFault::NotNumber { field: 5 });
    };
    Ok(UnitLine::Gain { name, a, b, c })
}

/// `K,name,v`, from v on.
fn read_constant<'a>(line: &'a [u8], name: &'a [u8]) -> Result<UnitLine<'a>, LineFault>
    ensures { unit_read result ≡ with_name name.now (constant_at line.now) }
{
    let Some(v) = number(field(line, 3)) else {
        return Err(LineFault::NotNumber { field: 3 });
    };
    Ok(UnitLine::Constant { name, v })
}

/// A line of a units file, where the rig has the units of the lines before it.
pub fn read_unit<'a>(line: &'a [u8], known: &FileRig) -> Result<UnitLine<'a>, LineFault>
    ensures { unit_read result ≡ unit_line (names_of known.now) line.now }
{
    let Some(kind) = kind_of(field(line, 1)) else {
        return Err(LineFault::Letter);
    };
    if field_count(line) != fields_of(kind) {
        return Err(LineFault::FieldCount);
    }
    if !known.has_room() {
        return Err(LineFault::TooManyUnits);
    }
    let Some(name) = name_in(line, 2) else {
        return Err(LineFault::NotName { field: 2 });
    };
    let None = unit_named(known, name) else {
        return Err(LineFault::NameUsed { field: 2 });
    };
    match kind {
        Kind::Integrator => read_integrator(line, name),
        Kind::Gain => read_gain(line, name),
        Kind::Constant => read_constant(line, name),
    }
}
