// Filling a file rig from a units file.
ghost use Rattle.std.specs.Prelude.{◌≡◌, ℕ};
ghost use Rattle.file_rig.specs.Table.{names_of};
ghost use Rattle.lines.specs.UnitLines.{unit_said};
ghost use Rattle.fields.specs.Parts.{PartsLaw};
ghost use Rattle.grammar.specs.Texts.{ProperUnit, CapGrammar, UnitGrammar};
ghost use Rattle.grammar.specs.Laws.{UnitsGrammar};
ghost use Rattle.load.specs.Loaded.{UnitsLoaded};
ghost use Rattle.load.specs.Filling.{UnitsFilled, LineAdded};

use super::fault::LoadFault;
use file_rig::table::FileRig;
use file_rig::table::fault::AddFault;
use files::cursor::Cursor;
use lines::unit::UnitLine;

/// Adds the unit of a line that was read against the rig's names: only memory can be wanting.
fn add_line(rig: &mut FileRig, line: &UnitLine<'_>) -> Result<(), LoadFault>
    requires { ProperUnit (names_of rig.old) (unit_said line.now) }
    ensures { LineAdded rig.old (unit_said line.now) result rig.new }
{
    match rig.add(line.name(), line.design()) {
        Ok(_) => Ok(()),
        // A `match` in the arm: in `Err(_)` the proof is not told that it is another fault.
        Err(fault) => match fault {
            AddFault::NoMemory => Err(LoadFault::NoMemory),
            _ => unreachable(),
        },
    }
}

/// Fills a rig line by line, up to the first line that cannot be read.
#[tactic(auto, using(grammar::proofs::Whole::units_law))]
fn fill_units(bytes: &[u8], rig: &mut FileRig) -> Result<u32, LoadFault>
    ensures filled { UnitsFilled bytes.now result rig.new }
    ensures grammar { UnitsGrammar bytes.now }
{
    rig.clear();
    let mut cursor = Cursor::new(bytes);
    let most = cursor.units_heading()?;
    while let Some(answer) = cursor.next_unit(rig) {
        let line = answer?;
        add_line(rig, &line)?;
    }
    Ok(most)
}

/// Fills a rig with the units of a units file, and answers the file's cap. A file that is refused leaves the rig without units.
#[tactic(auto, using(grammar::proofs::Lines::cap_law, grammar::proofs::Lines::unit_line_law))]
pub fn load_units(bytes: &[u8], rig: &mut FileRig) -> Result<u32, LoadFault>
    ensures loaded { UnitsLoaded bytes.now result rig.new }
    ensures grammar { UnitsGrammar bytes.now }
    ensures lines { PartsLaw 10 bytes.now }
    ensures first { CapGrammar }
    ensures later { UnitGrammar }
{
    // No `map_err`: of a closure that changes what it borrows the proof is not told what it leaves there.
    let answer = fill_units(bytes, rig);
    if answer.is_err() {
        rig.clear();
    }
    answer
}
