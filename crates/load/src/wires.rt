// Filling a wiring from a wires file.
ghost use Rattle.std.specs.Prelude.{◌≡◌, ℕ, Some};
ghost use Rattle.file_rig.specs.Table.{names_of};
ghost use Rattle.lines.specs.Known.{unit_named};
ghost use Rattle.lines.specs.WireLines.{Wire, Names, IsEnd, end_said};
ghost use Rattle.fields.specs.Parts.{PartsLaw};
ghost use Rattle.grammar.specs.Texts.{WireGrammar};
ghost use Rattle.grammar.specs.Laws.{WiresGrammar};
ghost use Rattle.load.specs.Loaded.{WiresLoaded};
ghost use Rattle.load.specs.Filling.{Resolves, WireAdded, WiresFilled};

use file_rig::table::FileRig;
use files::cursor::Cursor;
use lines::fault::{FileFault, LineFault};
use lines::wire::{End, WireLine};
use wiring::fault::WireFault;
use wiring::port::Port;
use wiring::table::Wiring;

/// The port at an end whose unit is known.
#[tactic(auto, using(lines::proofs::Naming::found_is))]
fn resolve(rig: &FileRig, end: End<'_>) -> Port
    requires { (u : ℕ) × (unit_named (names_of rig.now) end.name.now ≡ Some u) }
    ensures { IsEnd (names_of rig.now) (end_said end.entry) result }
{
    let Some(unit) = rig.find(end.name) else {
        unreachable()
    };
    Port {
        unit,
        port: end.port,
    }
}

/// Adds the wire of a line that was read against the rig's names: it is refused only where its input is wired already.
fn add_wire(wiring: &mut Wiring, rig: &FileRig, line: &WireLine<'_>) -> Result<(), LineFault>
    requires { Resolves (names_of rig.now) line.now }
    ensures { (w : Wire) → Names (names_of rig.now) line.now w → WireAdded wiring.old w result wiring.new }
{
    let from = resolve(rig, line.source());
    let to = resolve(rig, line.target());
    // No `map_err`: in its closure the proof does not know that both ends are in range.
    match wiring.add(from, to) {
        Ok(()) => Ok(()),
        Err(WireFault::WiredTwice(_)) => Err(LineFault::WiredTwice),
        Err(WireFault::OutOfRange(_)) => unreachable(),
    }
}

/// Fills a wiring line by line, up to the first line that cannot be read.
// Not one function with `fill_units`, nor `load_wires` with `load_units`: what they add, refuse and number they would take as closures.
#[tactic(auto, using(grammar::proofs::Whole::wires_law))]
fn fill_wires(bytes: &[u8], rig: &FileRig, wiring: &mut Wiring) -> Result<(), FileFault>
    ensures filled { WiresFilled (names_of rig.now) bytes.now result wiring.new }
    ensures grammar { WiresGrammar (names_of rig.now) bytes.now }
{
    wiring.clear();
    let mut cursor = Cursor::new(bytes);
    cursor.wires_heading()?;
    loop {
        let number = cursor.line();
        let Some(answer) = cursor.next_wire(rig) else {
            return Ok(());
        };
        let line = answer?;
        // No `map_err` and `?`: over the closure the loop's goals stayed open.
        if let Err(fault) = add_wire(wiring, rig, &line) {
            return Err(FileFault {
                line: number,
                fault,
            });
        }
    }
}

/// Fills a wiring with the wires of a wires file between units of a loaded rig. A file that is refused leaves it without wires.
#[tactic(auto, using(grammar::proofs::Lines::wire_line_law))]
pub fn load_wires(bytes: &[u8], rig: &FileRig, wiring: &mut Wiring) -> Result<(), FileFault>
    ensures loaded { WiresLoaded (names_of rig.now) bytes.now result wiring.new }
    ensures grammar { WiresGrammar (names_of rig.now) bytes.now }
    ensures lines { PartsLaw 10 bytes.now }
    ensures later { WireGrammar }
{
    // No `map_err`: of a closure that changes what it borrows the proof is not told what it leaves there.
    let answer = fill_wires(bytes, rig, wiring);
    if answer.is_err() {
        wiring.clear();
    }
    answer
}
