// What the letter of a line asks of its fields.
use super::FileKind;

/// The letter of a line whose first field is one.
#[derive(Clone, Copy)]
pub(super) enum Letter {
    I,
    G,
    K,
    W,
}

impl Letter {
    /// The letter of a line of this file that begins with one.
    pub(super) fn of(file: FileKind, line: &[u8]) -> Letter {
        match (file, line) {
            (FileKind::Wires, _) => Letter::W,
            (FileKind::Units, [b'I', ..]) => Letter::I,
            (FileKind::Units, [b'G', ..]) => Letter::G,
            (FileKind::Units, _) => Letter::K,
        }
    }

    /// What such a line is called, with its article, and how many fields it has.
    pub(super) fn form(self) -> (&'static str, usize) {
        match self {
            Letter::I => ("an I line", 6),
            Letter::G => ("a G line", 5),
            Letter::K => ("a K line", 3),
            Letter::W => ("a W line", 5),
        }
    }

    /// The least and the greatest number that a field of such a line takes.
    pub(super) fn range(self, field: usize) -> (i32, i32) {
        match (self, field) {
            (Letter::I, 6) => (1, 1_000_000),
            (Letter::G, 3 | 4) => (-1000, 1000),
            (Letter::W, _) => (0, 7),
            _ => (i32::MIN, i32::MAX),
        }
    }
}
