// What a refused line has, and what it should have.
use super::letter::Letter;
use super::{FileKind, RefusedFile};
use crate::quoted::Excerpt;
use fields::parts::{count, part};
use lines::fault::LineFault;
use std::fmt;

impl<'a> RefusedFile<'a> {
    /// The line that is refused.
    fn line(&self) -> &'a [u8] {
        part(self.bytes, b'\n', self.fault.line)
    }

    /// Whether a line feed ends the line that is refused.
    fn is_ended(&self) -> bool {
        self.fault.line < count(self.bytes, b'\n')
    }

    /// What the letter of the line asks of it.
    fn letter(&self) -> Letter {
        Letter::of(self.file, self.line())
    }

    /// A field of the line, as it is.
    fn bare(&self, field: usize) -> Excerpt<'a> {
        Excerpt::bare(part(self.line(), b',', field))
    }

    /// A field of the line, between quotes.
    fn quoted(&self, field: usize) -> Excerpt<'a> {
        Excerpt::quoted(part(self.line(), b',', field))
    }

    /// The first line is wrong.
    fn put_first_line<W: fmt::Write>(&self, f: &mut fmt::Formatter<W>) -> fmt::Result {
        if !self.is_ended() {
            return f.write_str("no line feed ends the first line");
        }
        let line = Excerpt::quoted(self.line());
        match self.file {
            FileKind::Units => write!(f, "{line} is not UNITS,1,cap with cap 1 to 1000000"),
            FileKind::Wires => write!(f, "{line} is not WIRES,1"),
        }
    }

    /// The line begins with no letter of its file.
    fn put_letter<W: fmt::Write>(&self, f: &mut fmt::Formatter<W>) -> fmt::Result {
        if !self.is_ended() {
            return f.write_str("no line feed ends the line");
        }
        if self.line().is_empty() {
            return f.write_str("the line is empty");
        }
        let letters = match self.file {
            FileKind::Units => "I, G or K",
            FileKind::Wires => "W",
        };
        write!(f, "the line begins with {}, not {letters}", self.quoted(1))
    }

    /// The line has another number of fields than its letter asks for.
    fn put_count<W: fmt::Write>(&self, f: &mut fmt::Formatter<W>) -> fmt::Result {
        let met = count(self.line(), b',');
        let noun = if met == 1 { "field" } else { "fields" };
        let (form, wanted) = self.letter().form();
        write!(f, "{met} {noun}, but {form} has {wanted}")
    }

    /// The field is no number, or out of its range.
    fn put_number<W: fmt::Write>(&self, field: usize, f: &mut fmt::Formatter<W>) -> fmt::Result {
        let (low, high) = self.letter().range(field);
        write!(
            f,
            "{} is not a whole number from {low} to {high}",
            self.quoted(field)
        )
    }

    /// What is wrong with the line.
    pub(super) fn put_words<W: fmt::Write>(&self, f: &mut fmt::Formatter<W>) -> fmt::Result {
        match self.fault.fault {
            LineFault::FirstLine => self.put_first_line(f),
            LineFault::Letter => self.put_letter(f),
            LineFault::FieldCount => self.put_count(f),
            LineFault::TooManyUnits => f.write_str("there are 16 units already"),
            LineFault::NotName { field } => {
                write!(
                    f,
                    "{} is not a name, 1 to 8 of a-z and 0-9",
                    self.quoted(field)
                )
            }
            LineFault::NameUsed { field } => write!(
                f,
                "name {} is used already",
                self.quoted(field)
            ),
            LineFault::NoUnit { field } => write!(f, "no unit is named {}", self.quoted(field)),
            LineFault::NotNumber { field } => self.put_number(field, f),
            LineFault::Disagree => {
                let (x, lo, hi) = (self.bare(3), self.bare(4), self.bare(5));
                write!(f, "x {x} lies outside lo {lo} to hi {hi}")
            }
            LineFault::WiredTwice => {
                write!(
                    f,
                    "input {}.{} is wired already",
                    self.bare(4),
                    self.bare(5)
                )
            }
        }
    }
}
