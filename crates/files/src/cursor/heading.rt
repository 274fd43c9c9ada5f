// The first line of a file, which tells what the file is.
ghost use Rattle.std.specs.Prelude.{◌≡◌};
ghost use Rattle.lines.specs.Headers.{cap_of, wires_head};
ghost use Rattle.files.specs.Positions.{position_of};
ghost use Rattle.files.specs.Heading.{HeadedBy, heading_at, after_heading};

use super::Cursor;
use lines::fault::{FileFault, LineFault};
use lines::header::{is_wires, read_cap};

impl<'a> Cursor<'a> {
    /// Reads the first line by what judges its text; whatever is wrong with it is one fault.
    fn heading<T, F: FnOnce(&'a [u8]) -> Option<T>>(&mut self, judge: F) -> Result<T, FileFault>
        requires { F.IsAlwaysCallable judge }
        ensures { HeadedBy F.FnOnce judge (position_of self.old) result (position_of self.new) }
    {
        if let Some(Ok(line)) = self.front()
            && let Some(told) = judge(line)
        {
            self.pass(line.len());
            return Ok(told);
        }
        Err(self.stop(LineFault::FirstLine))
    }

    /// Reads the first line of a units file, and answers its cap.
    pub fn units_heading(&mut self) -> Result<u32, FileFault>
        ensures answer { result ≡ heading_at cap_of (position_of self.old) }
        ensures cursor { position_of self.new ≡ after_heading cap_of (position_of self.old) }
    {
        self.heading(read_cap)
    }

    /// Reads the first line of a wires file.
    pub fn wires_heading(&mut self) -> Result<(), FileFault>
        ensures answer { result ≡ heading_at wires_head (position_of self.old) }
        ensures cursor { position_of self.new ≡ after_heading wires_head (position_of self.old) }
    {
        // No `then_some`: over it what the closure tells was not proved.
        self.heading(|line| if is_wires(line) { Some(()) } else { None })
    }
}
