// One line at each call, until the end of the file or a line that cannot be read.
ghost use Rattle.std.specs.Prelude.{◌≡◌};
ghost use Rattle.file_rig.specs.Table.{names_of};
ghost use Rattle.lines.specs.UnitLines.{unit_line};
ghost use Rattle.lines.specs.WireLines.{wire_line};
ghost use Rattle.files.specs.Positions.{position_of};
ghost use Rattle.files.specs.Reading.{GivenBy, answer_at, after_at, unit_given, WireGiven};

use super::Cursor;
use file_rig::table::FileRig;
use lines::fault::{FileFault, LineFault};
use lines::unit::UnitLine;
use lines::unit::reading::read_unit;
use lines::wire::WireLine;
use lines::wire::reading::read_wire;

impl<'a> Cursor<'a> {
    /// The next line by what reads its text: past the line then, or at the end of the file where the line cannot be read.
    fn next<T, F: FnOnce(&'a [u8]) -> Result<T, LineFault>>(
        &mut self,
        read: F,
    ) -> Option<Result<T, FileFault>>
        requires { F.IsAlwaysCallable read }
        ensures { GivenBy F.FnOnce read (position_of self.old) result (position_of self.new) }
    {
        let text = match self.front()? {
            Ok(text) => text,
            // No `?` here and below: a fault also moves the cursor to the end.
            Err(fault) => return Some(Err(self.stop(fault))),
        };
        match read(text) {
            Ok(line) => {
                self.pass(text.len());
                Some(Ok(line))
            }
            Err(fault) => Some(Err(self.stop(fault))),
        }
    }

    /// The next line of a units file, where the rig has the units of the lines before it.
    pub fn next_unit(&mut self, known: &FileRig) -> Option<Result<UnitLine<'a>, FileFault>>
        ensures answer { unit_given result ≡ answer_at (unit_line (names_of known.now)) (position_of self.old) }
        ensures cursor { position_of self.new ≡ after_at (unit_line (names_of known.now)) (position_of self.old) }
    {
        self.next(|text| read_unit(text, known))
    }

    /// The next line of a wires file between units of this rig.
    pub fn next_wire(&mut self, known: &FileRig) -> Option<Result<WireLine<'a>, FileFault>>
        ensures answer { WireGiven (names_of known.now) result (answer_at (wire_line (names_of known.now)) (position_of self.old)) }
        ensures cursor { position_of self.new ≡ after_at (wire_line (names_of known.now)) (position_of self.old) }
    {
        self.next(|text| read_wire(text, known))
    }
}
