// A file that is refused, in words.
use lines::fault::FileFault;
use refusal::Code;
use std::fmt;

mod letter;
mod words;

/// Which file was read.
#[derive(Clone, Copy)]
pub enum FileKind {
    Units,
    Wires,
}

/// A file whose load was refused: its path, which file it is, its bytes, and the fault that the load answered.
#[derive(Clone, Copy)]
pub struct RefusedFile<'a> {
    pub path: &'a str,
    pub file: FileKind,
    pub bytes: &'a [u8],
    pub fault: FileFault,
}

/// As `load refused 15 1 3 2: units.csv:3: field 2: name 'winch' is used already`.
impl fmt::Display for RefusedFile<'_> {
    fn fmt<W: fmt::Write>(&self, f: &mut fmt::Formatter<W>) -> fmt::Result {
        let line = self.fault.line;
        let code = Code::from(self.fault);
        write!(f, "load refused {code}: {}:{line}: ", self.path)?;
        // By the code, in which 0 stands for no field.
        if code.b > 0 {
            write!(f, "field {}: ", code.b)?;
        }
        self.put_words(f)
    }
}
