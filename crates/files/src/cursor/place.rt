// Where a cursor stands.
ghost use Rattle.std.specs.Prelude.{◌≡◌};
ghost use Rattle.files.specs.Positions.{position_of};

use super::Cursor;

impl Cursor<'_> {
    /// The number of the line at the cursor, from 1.
    pub fn line(&self) -> usize
        ensures { result ≡ (position_of self.now).line }
    {
        self.line
    }

    /// How many bytes of the file lie before the cursor.
    pub fn position(&self) -> usize
        ensures { result ≡ (position_of self.now).at }
    {
        self.at
    }
}
