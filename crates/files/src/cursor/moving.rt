// A new cursor, the line at the cursor, and the ways to move on from it.
ghost use Rattle.std.specs.Prelude.{◌≡◌, ℕ, ◌+◌, ◌≤◌, length};
ghost use Rattle.files.specs.Positions.{position_of, start, ahead, front_of, text_read, Fits, passed, stopped};

use super::Cursor;
use fields::parts::first_at;
use lines::fault::{FileFault, LineFault};

impl<'a> Cursor<'a> {
    /// At the first line of a file.
    pub fn new(bytes: &'a [u8]) -> Cursor<'a>
        ensures { position_of result ≡ start bytes.now }
    {
        Cursor {
            bytes,
            at: 0,
            line: 1,
        }
    }

    /// The line at the cursor: none at the end of the file, a fault where no line feed follows.
    pub(super) fn front(&self) -> Option<Result<&'a [u8], LineFault>>
        ensures value { text_read result ≡ front_of (ahead (position_of self.now)) }
        ensures fits { Fits (position_of self.now) (text_read result) }
    {
        let bytes = self.bytes;
        let rest = &bytes[self.at..];
        if rest.is_empty() {
            return None;
        }
        let Some(n) = first_at(rest, b'\n') else {
            return Some(Err(LineFault::Letter));
        };
        Some(Ok(&rest[..n]))
    }

    /// Moves past a line of this length and its line feed.
    pub(super) fn pass(&mut self, len: usize)
        requires { self.old.at + len + 1 ≤ length self.old.bytes.now }
        ensures { position_of self.new ≡ passed (position_of self.old) len }
    {
        self.at += len + 1;
        self.line += 1;
    }

    /// Moves to the end of the file, and tells the fault of the line at the cursor.
    pub(super) fn stop(&mut self, fault: LineFault) -> FileFault
        ensures value { result ≡ record { line = self.old.line; fault = fault } }
        ensures cursor { position_of self.new ≡ stopped (position_of self.old) }
    {
        self.at = self.bytes.len();
        FileFault {
            line: self.line,
            fault,
        }
    }
}
