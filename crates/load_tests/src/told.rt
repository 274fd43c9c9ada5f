// What a load answers by its numbers, and what the tests of more than one module need.
use file_rig::table::FileRig;
use load::units::load_units;
use load::wires::load_wires;
use refusal::Code;
use rig::Rig;
use std::alloc::{AllocError, Global};
use std::process::Abort;
use std::test::Fail;
use wiring::port::Port;
use wiring::table::Wiring;

/// The refusal of a load, where there is one.
pub(crate) type Told = Option<Code>;

/// A refusal by its number, layer, a and b. A constant may call no function, so the tables write this.
macro_rules! refused {
    ($number:expr, $layer:expr, $a:expr, $b:expr) => {
        Some(Code {
            number: $number,
            layer: $layer,
            a: $a,
            b: $b,
        })
    };
}

pub(crate) use refused;

/// A port by its unit and its own number.
macro_rules! port {
    ($unit:expr, $port:expr) => {
        Port {
            unit: $unit,
            port: $port,
        }
    };
}

pub(crate) use port;

/// A line that cannot be read, with the number and the field of its refusal.
pub(crate) struct BadLine {
    pub(crate) line: &'static [u8],
    pub(crate) number: usize,
    pub(crate) field: usize,
}

/// A bad line by its bytes, and the number and the field of its refusal.
macro_rules! bad {
    ($line:expr, $number:expr, $field:expr) => {
        BadLine {
            line: $line,
            number: $number,
            field: $field,
        }
    };
}

pub(crate) use bad;

/// The beginning of a file, and the number of the line that follows.
pub(crate) type Beginning = (&'static [u8], usize);

/// A number of a line: what stands before and after it in a file, and its field.
pub(crate) struct Number {
    pub(crate) before: &'static [u8],
    pub(crate) after: &'static [u8],
    pub(crate) field: usize,
}

/// A number of a line by what stands before and after it, and its field.
macro_rules! number {
    ($before:expr, $after:expr, $field:expr) => {
        Number {
            before: $before,
            after: $after,
            field: $field,
        }
    };
}

pub(crate) use number;

/// Texts that are no numbers, whatever field they stand in.
pub(crate) const NOT_NUMBERS: [&[u8]; 32] = [
    b"",
    b"-",
    b"--1",
    b"+1",
    b"+0",
    b"-0",
    b"00",
    b"01",
    b"-01",
    b"-00",
    b"0x1",
    b"1e3",
    b"1.0",
    b"1_0",
    b"1 ",
    b" 1",
    b"1\r",
    b"1\t",
    b"1-",
    b"1\0",
    b"\x001",
    b"1\xb2",
    b"\xff",
    b"a",
    b"1:",
    b"/1",
    b"2147483648",
    b"-2147483649",
    b"4294967297",
    b"12345678901234567890",
    b"18446744073709551617",
    b"-18446744073709551615",
];

/// A whole file: its text, what the load answers, and how many units or wires there are then.
pub(crate) struct Whole {
    pub(crate) text: &'static [u8],
    pub(crate) told: Told,
    pub(crate) count: usize,
}

/// A file by its text, how many units or wires its load leaves, and what it answers.
macro_rules! whole {
    ($text:expr, $count:expr => $told:expr) => {
        Whole {
            text: $text,
            told: $told,
            count: $count,
        }
    };
}

pub(crate) use whole;

/// The parts of a text, joined.
pub(crate) fn joined(heap: Global, parts: &[&[u8]]) -> Result<Vec<u8>, AllocError> {
    parts.concat(heap)
}

/// What files are loaded into: a rig by units files, a wiring by wires files.
pub(crate) trait Destination {
    /// A file of one unit or one wire.
    const ONE: &'static [u8];

    /// Loads a file, and answers its refusal.
    fn load(&mut self, file: &[u8]) -> Result<Told, Fail>;

    /// How many units or wires there are.
    fn count(&self) -> usize;
}

impl Destination for FileRig {
    const ONE: &'static [u8] = b"UNITS,1,9\nK,old,1\n";

    fn load(&mut self, file: &[u8]) -> Result<Told, Fail> {
        let told = load_units(file, self)
            .err()
            .map(|fault| fault.code().ok_or("no memory"));
        Ok(told.transpose()?)
    }

    fn count(&self) -> usize {
        self.units()
    }
}

/// A wiring, with the units that its wires may join.
#[derive(Drop)]
pub(crate) struct Wires {
    pub(crate) rig: FileRig,
    pub(crate) wiring: Wiring,
}

impl Destination for Wires {
    const ONE: &'static [u8] = b"WIRES,1\nW,used,7,used,7\n";

    fn load(&mut self, file: &[u8]) -> Result<Told, Fail> {
        let answer = load_wires(file, &self.rig, &mut self.wiring);
        Ok(answer.err().map(Code::from))
    }

    // How many of the 16 times 8 inputs have a source.
    fn count(&self) -> usize {
        let wired = |unit| {
            (0..8)
                .filter(|port| self.wiring.source(Port { unit, port: *port }).is_some())
                .count()
        };
        (0..16).fold(0, |n: usize, unit| n.saturating_add(wired(unit)))
    }
}

/// Loads the file of these parts over one unit or wire: its refusal, and how many units or wires there are then.
// Runtime, heap and destination go apart, here and below: each test would make a struct of them for one call.
pub(crate) fn loaded<D: Destination>(
    heap: Global,
    into: &mut D,
    parts: &[&[u8]],
) -> Result<(Told, usize), Fail> {
    if into.load(D::ONE)?.is_some() || into.count() != 1 {
        return Err(Fail::new("the file of one is not loaded"));
    }
    let file = joined(heap, parts)?;
    let told = into.load(&file)?;
    Ok((told, into.count()))
}

/// Loads files that are refused by their first line, and files that are not.
pub(crate) fn check_files<D: Destination>(
    rt: &impl Abort,
    heap: Global,
    into: &mut D,
    bad_first: &[&[u8]],
    files: &[Whole],
) -> Result<(), Fail> {
    for text in bad_first {
        let answer = loaded(heap, into, &[text])?;
        assert_eq!(rt; answer, (refused!(10, 1, 1, 0), 0), "{text:?}");
    }
    for Whole { text, told, count } in files {
        let answer = loaded(heap, into, &[text])?;
        assert_eq!(rt; answer, (*told, *count), "{text:?}");
    }
    Ok(())
}

/// Loads a line that cannot be read after each beginning of a file, and with faults that come first: no line feed,
/// a wrong letter, both, a field too many.
pub(crate) fn check_bad_line<D: Destination>(
    rt: &impl Abort,
    heap: Global,
    into: &mut D,
    bad: &BadLine,
    before: &[Beginning],
    after: &[&'static [u8]],
    letter: &'static [u8],
) -> Result<(), Fail> {
    let BadLine {
        line,
        number,
        field,
    } = *bad;
    for (before, at) in before {
        let refused = |number, field| (refused!(number, 1, *at, field), 0);
        for after in after {
            let answer = loaded(heap, into, &[before, line, b"\n", after])?;
            assert_eq!(rt; answer, refused(number, field), "{line:?}");
        }
        for last in [b"X", letter] {
            let answer = loaded(heap, into, &[before, last, line])?;
            assert_eq!(rt; answer, refused(11, 0), "{line:?}");
        }
        let answer = loaded(heap, into, &[before, b"X", line, b"\n"])?;
        assert_eq!(rt; answer, refused(11, 0), "{line:?}");
        if !line.is_empty() {
            let answer = loaded(heap, into, &[before, line])?;
            assert_eq!(rt; answer, refused(11, 0), "{line:?}");
        }
        if number > 12 {
            let answer = loaded(heap, into, &[before, line, b",0\n"])?;
            assert_eq!(rt; answer, refused(12, 0), "{line:?}");
        }
    }
    Ok(())
}

/// Loads each text that is no number in place of each of the numbers.
pub(crate) fn check_numbers<D: Destination>(
    rt: &impl Abort,
    heap: Global,
    into: &mut D,
    numbers: &[Number],
) -> Result<(), Fail> {
    for text in &NOT_NUMBERS {
        for Number {
            before,
            after,
            field,
        } in numbers {
            let answer = loaded(heap, into, &[before, text, after])?;
            assert_eq!(rt; answer, (refused!(13, 1, 2, *field), 0), "{text:?}");
        }
    }
    Ok(())
}

// The units of every wires file here: used, tank, a, b and so on, numbered from 0.
const SIXTEEN: &[u8] =
    b"UNITS,1,9\nK,used,1\nK,tank,1\nK,a,1\nK,b,1\nK,winch,1\nK,net,1\nK,draw,1\nK,12345678,1\nK,0,1\nK,c,1\nK,d,1\nK,e,1\nK,f,1\nK,g,1\nK,abcdefgh,1\nK,z,1\n";

/// A rig of these 16 units.
pub(crate) fn sixteen(heap: Global) -> Result<FileRig, Fail> {
    let mut rig = FileRig::new(heap);
    load_units(SIXTEEN, &mut rig)?;
    Ok(rig)
}

/// No wires yet, between these 16 units.
pub(crate) fn no_wires(heap: Global) -> Result<Wires, Fail> {
    Ok(Wires {
        rig: sixteen(heap)?,
        wiring: Wiring::new(),
    })
}
