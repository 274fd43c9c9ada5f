ghost use Rattle.std.specs.Prelude.{◌≡◌};
ghost use Rattle.lines.specs.Codes.{field_of, code_of};

use refusal::Code;
use thiserror::Error;

/// Why a line cannot be read. Fields are counted from 1, the letter being field 1.
#[derive(Clone, Copy, PartialEq, Eq, Debug, Error)]
pub enum LineFault {
    /// The first line of the file is wrong, or no line feed ends it.
    #[error("the first line is wrong, or has no line feed")]
    FirstLine,
    /// The first field is no letter of this file, or no line feed ends the line.
    #[error("the line begins with no letter of this file, or has no line feed")]
    Letter,
    /// The line has another number of fields than its letter asks for.
    #[error("the line has another number of fields")]
    FieldCount,
    /// There are 16 units already.
    #[error("there are 16 units already")]
    TooManyUnits,
    /// The field is no name.
    #[error("field {field}: not a name")]
    NotName { field: usize },
    /// The field is the name of an earlier unit.
    #[error("field {field}: the name is used already")]
    NameUsed { field: usize },
    /// The field is the name of no unit.
    #[error("field {field}: no unit has this name")]
    NoUnit { field: usize },
    /// The field is no number, or out of its range.
    #[error("field {field}: not a number, or out of its range")]
    NotNumber { field: usize },
    /// Two fields disagree: x lies outside lo to hi.
    #[error("x lies outside lo to hi")]
    Disagree,
    /// The input is wired already.
    #[error("the input is wired already")]
    WiredTwice,
}

impl LineFault {
    /// The field that is at fault, where it is one field alone.
    pub fn field(self) -> Option<usize>
        ensures { result ≡ field_of self }
    {
        match self {
            LineFault::NotName { field }
            | LineFault::NameUsed { field }
            | LineFault::NoUnit { field }
            | LineFault::NotNumber { field } => Some(field),
            LineFault::FirstLine
            | LineFault::Letter
            | LineFault::FieldCount
            | LineFault::TooManyUnits
            | LineFault::Disagree
            | LineFault::WiredTwice => None,
        }
    }
}

/// A line that cannot be read, by its number from 1.
#[derive(Clone, Copy, PartialEq, Eq, Debug, Error)]
#[error("line {line}: {fault}")]
pub struct FileFault {
    pub line: usize,
    pub fault: LineFault,
}

/// The refusal by its numbers.
impl From<FileFault> for Code {
    ghost from_gives = { λ fault code. code ≡ code_of fault };

    fn from(refused: FileFault) -> Code {
        let number = match refused.fault {
            LineFault::FirstLine => 10,
            LineFault::Letter => 11,
            LineFault::FieldCount => 12,
            LineFault::NotNumber { .. } | LineFault::Disagree => 13,
            LineFault::NotName { .. } => 14,
            LineFault::NameUsed { .. } => 15,
            LineFault::TooManyUnits => 16,
            LineFault::NoUnit { .. } => 17,
            LineFault::WiredTwice => 19,
        };
        Code {
            number,
            layer: 1,
            a: refused.line,
            b: refused.fault.field().unwrap_or(0),
        }
    }
}
