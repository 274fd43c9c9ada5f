// Files of any bytes: each byte value at each place of a file, all values in turn, and files with very long parts.
use super::told::{Destination, Told, joined, loaded, no_wires, refused};
use file_rig::table::FileRig;
use refusal::Code;
use std::alloc::{AllocError, Global};
use std::fmt::Debug;
use std::process::Abort;
use std::test::Fail;

// The places from one to another of a file, the bytes from one to another that stand there in turn, and what the load then
// answers. Of two rows that fit, the later counts.
struct Places {
    first: usize,
    last: usize,
    low: u8,
    high: u8,
    told: Told,
}

// A row is written with ranges. It keeps their ends, as a constant cannot hold a range.
macro_rules! places {
    ($first:literal..=$last:literal, $low:literal..=$high:literal => $told:expr) => {
        Places {
            first: $first,
            last: $last,
            low: $low,
            high: $high,
            told: $told,
        }
    };
}

fn answer_for(rows: &[Places], place: usize, byte: u8) -> Result<Told, Fail> {
    let row = rows
        .iter()
        .rev()
        .find(|row| {
            (row.first..=row.last).contains(&place) && (row.low..=row.high).contains(&byte)
        })
        .ok_or("no row fits")?;
    Ok(row.told)
}

// A text with another byte at one place.
fn changed(heap: Global, text: &[u8], place: usize, byte: u8) -> Result<Vec<u8>, AllocError> {
    let mut file = text.to_vec(heap)?;
    if let Some(old) = file.as_mut_slice().get_mut(place) {
        *old = byte;
    }
    Ok(file)
}

const UNITS: [Places; 29] = [
    // UNITS,1,5 and K,a,7, each with its line feed.
    places!(0..=9, 0..=255 => refused!(10, 1, 1, 0)),
    places!(0..=0, b'U'..=b'U' => None),
    places!(1..=1, b'N'..=b'N' => None),
    places!(2..=2, b'I'..=b'I' => None),
    places!(3..=3, b'T'..=b'T' => None),
    places!(4..=4, b'S'..=b'S' => None),
    places!(5..=5, b','..=b',' => None),
    places!(6..=6, b'1'..=b'1' => None),
    places!(7..=7, b','..=b',' => None),
    places!(8..=8, b'1'..=b'9' => None),
    places!(9..=9, b'\n'..=b'\n' => None),
    places!(10..=11, 0..=255 => refused!(11, 1, 2, 0)),
    places!(10..=10, b'G'..=b'G' => refused!(12, 1, 2, 0)),
    places!(10..=10, b'I'..=b'I' => refused!(12, 1, 2, 0)),
    places!(10..=10, b'K'..=b'K' => None),
    places!(11..=11, b'\n'..=b'\n' => refused!(12, 1, 2, 0)),
    places!(11..=11, b','..=b',' => None),
    places!(12..=12, 0..=255 => refused!(14, 1, 2, 2)),
    places!(12..=12, b'\n'..=b'\n' => refused!(12, 1, 2, 0)),
    places!(12..=12, b','..=b',' => refused!(12, 1, 2, 0)),
    places!(12..=12, b'a'..=b'z' => None),
    places!(12..=12, b'0'..=b'9' => None),
    places!(13..=13, 0..=255 => refused!(12, 1, 2, 0)),
    places!(13..=13, b','..=b',' => None),
    places!(14..=14, 0..=255 => refused!(13, 1, 2, 3)),
    places!(14..=14, b','..=b',' => refused!(12, 1, 2, 0)),
    places!(14..=14, b'0'..=b'9' => None),
    places!(15..=15, 0..=255 => refused!(11, 1, 2, 0)),
    places!(15..=15, b'\n'..=b'\n' => None),
];

const WIRES: [Places; 44] = [
    // WIRES,1 and W,a,0,b,7, each with its line feed.
    places!(0..=7, 0..=255 => refused!(10, 1, 1, 0)),
    places!(0..=0, b'W'..=b'W' => None),
    places!(1..=1, b'I'..=b'I' => None),
    places!(2..=2, b'R'..=b'R' => None),
    places!(3..=3, b'E'..=b'E' => None),
    places!(4..=4, b'S'..=b'S' => None),
    places!(5..=5, b','..=b',' => None),
    places!(6..=6, b'1'..=b'1' => None),
    places!(7..=7, b'\n'..=b'\n' => None),
    places!(8..=9, 0..=255 => refused!(11, 1, 2, 0)),
    places!(8..=8, b'W'..=b'W' => None),
    places!(9..=9, b'\n'..=b'\n' => refused!(12, 1, 2, 0)),
    places!(9..=9, b','..=b',' => None),
    places!(10..=10, 0..=255 => refused!(14, 1, 2, 2)),
    places!(10..=10, b'\n'..=b'\n' => refused!(12, 1, 2, 0)),
    places!(10..=10, b','..=b',' => refused!(12, 1, 2, 0)),
    places!(10..=10, b'0'..=b'9' => refused!(17, 1, 2, 2)),
    places!(10..=10, b'a'..=b'z' => refused!(17, 1, 2, 2)),
    places!(10..=10, b'0'..=b'0' => None),
    places!(10..=10, b'a'..=b'g' => None),
    places!(10..=10, b'z'..=b'z' => None),
    places!(14..=14, 0..=255 => refused!(14, 1, 2, 4)),
    places!(14..=14, b'\n'..=b'\n' => refused!(12, 1, 2, 0)),
    places!(14..=14, b','..=b',' => refused!(12, 1, 2, 0)),
    places!(14..=14, b'0'..=b'9' => refused!(17, 1, 2, 4)),
    places!(14..=14, b'a'..=b'z' => refused!(17, 1, 2, 4)),
    places!(14..=14, b'0'..=b'0' => None),
    places!(14..=14, b'a'..=b'g' => None),
    places!(14..=14, b'z'..=b'z' => None),
    places!(11..=11, 0..=255 => refused!(12, 1, 2, 0)),
    places!(11..=11, b','..=b',' => None),
    places!(13..=13, 0..=255 => refused!(12, 1, 2, 0)),
    places!(13..=13, b','..=b',' => None),
    places!(15..=15, 0..=255 => refused!(12, 1, 2, 0)),
    places!(15..=15, b','..=b',' => None),
    places!(12..=12, 0..=255 => refused!(13, 1, 2, 3)),
    places!(12..=12, b'\n'..=b'\n' => refused!(12, 1, 2, 0)),
    places!(12..=12, b','..=b',' => refused!(12, 1, 2, 0)),
    places!(12..=12, b'0'..=b'7' => None),
    places!(16..=16, 0..=255 => refused!(13, 1, 2, 5)),
    places!(16..=16, b','..=b',' => refused!(12, 1, 2, 0)),
    places!(16..=16, b'0'..=b'7' => None),
    places!(17..=17, 0..=255 => refused!(11, 1, 2, 0)),
    places!(17..=17, b'\n'..=b'\n' => None),
];

// Loads the text with each byte at each place.
fn check_changes<D: Destination>(
    rt: &impl Abort,
    heap: Global,
    into: &mut D,
    text: &[u8],
    rows: &[Places],
) -> Result<(), Fail> {
    for place in 0..text.len() {
        for byte in 0..=255u8 {
            let file = changed(heap, text, place, byte)?;
            let told = answer_for(rows, place, byte)?;
            let answer = loaded(heap, into, &[&file])?;
            let count = usize::from(told.is_none());
            assert_eq!(rt; answer, (told, count), "byte {byte} at {place}");
        }
    }
    Ok(())
}

#[test]
fn every_byte_at_every_place(rt: HostRuntime) -> Result<(), Fail> {
    let heap = rt.alloc();
    let mut rig = FileRig::new(heap);
    check_changes(&rt, heap, &mut rig, b"UNITS,1,5\nK,a,7\n", &UNITS)?;
    let mut wires = no_wires(heap)?;
    check_changes(&rt, heap, &mut wires, b"WIRES,1\nW,a,0,b,7\n", &WIRES)
}

// A row of a table of files that are refused.
trait Row: Debug {
    fn file(&self, heap: Global) -> Result<Vec<u8>, AllocError>;

    // What the load of the file answers.
    fn told(&self) -> Told;
}

fn check_rows<D: Destination, R: Row>(
    rt: &impl Abort,
    heap: Global,
    into: &mut D,
    rows: &[R],
) -> Result<(), Fail> {
    for row in rows {
        let file = row.file(heap)?;
        assert_eq!(rt; loaded(heap, into, &[&file])?, (row.told(), 0), "{row:?}");
    }
    Ok(())
}

// A file with one part many times: what stands before it, the part, how often, what follows, and what the load
// answers.
#[derive(Debug)]
struct Long {
    before: &'static [u8],
    part: &'static [u8],
    times: usize,
    after: &'static [u8],
    told: Told,
}

impl Row for Long {
    fn file(&self, heap: Global) -> Result<Vec<u8>, AllocError> {
        let middle = self.part.repeat(heap, self.times)?;
        joined(heap, &[self.before, &middle, self.after])
    }

    fn told(&self) -> Told {
        self.told
    }
}

macro_rules! long {
    ($before:expr, $part:expr, $times:expr, $after:expr => $told:expr) => {
        Long {
            before: $before,
            part: $part,
            times: $times,
            after: $after,
            told: $told,
        }
    };
}

const LONG_UNITS: [Long; 32] = [
    long!(b"", b",", 10_000, b"" => refused!(10, 1, 1, 0)),
    long!(b"", b",", 10_000, b"\n" => refused!(10, 1, 1, 0)),
    long!(b"UNITS,1,7\n", b",", 10_000, b"" => refused!(11, 1, 2, 0)),
    long!(b"UNITS,1,7\n", b",", 10_000, b"\n" => refused!(11, 1, 2, 0)),
    long!(b"UNITS,1,7\nK", b",", 10_000, b"\n" => refused!(12, 1, 2, 0)),
    long!(b"UNITS,1,7\nI", b",", 10_000, b"\n" => refused!(12, 1, 2, 0)),
    long!(b"UNITS,1,7", b",", 10_000, b"\n" => refused!(10, 1, 1, 0)),
    long!(b"UNITS,1,", b"9", 100_000, b"\n" => refused!(10, 1, 1, 0)),
    long!(b"UNITS,1,", b"0", 100_000, b"7\n" => refused!(10, 1, 1, 0)),
    long!(b"UNITS,", b"1", 100_000, b",7\n" => refused!(10, 1, 1, 0)),
    long!(b"UNITS,1,7\nK,a,", b"9", 100_000, b"\n" => refused!(13, 1, 2, 3)),
    long!(b"UNITS,1,7\nK,a,-", b"9", 100_000, b"\n" => refused!(13, 1, 2, 3)),
    long!(b"UNITS,1,7\nK,a,", b"0", 100_000, b"\n" => refused!(13, 1, 2, 3)),
    long!(b"UNITS,1,7\nK,a,", b"0", 100_000, b"1\n" => refused!(13, 1, 2, 3)),
    long!(b"UNITS,1,7\nG,a,", b"1", 100_000, b",0,0\n" => refused!(13, 1, 2, 3)),
    long!(b"UNITS,1,7\nG,a,0,", b"1", 100_000, b",0\n" => refused!(13, 1, 2, 4)),
    long!(b"UNITS,1,7\nG,a,0,0,", b"1", 100_000, b"\n" => refused!(13, 1, 2, 5)),
    long!(b"UNITS,1,7\nI,a,", b"1", 100_000, b",0,0,1\n" => refused!(13, 1, 2, 3)),
    long!(b"UNITS,1,7\nI,a,9,", b"1", 100_000, b",0,1\n" => refused!(13, 1, 2, 4)),
    long!(b"UNITS,1,7\nI,a,9,0,", b"1", 100_000, b",1\n" => refused!(13, 1, 2, 5)),
    long!(b"UNITS,1,7\nI,a,0,0,0,", b"1", 100_000, b"\n" => refused!(13, 1, 2, 6)),
    long!(b"UNITS,1,7\nK,", b"a", 100_000, b",1\n" => refused!(14, 1, 2, 2)),
    long!(b"UNITS,1,7\n", b"K", 100_000, b",a,1\n" => refused!(11, 1, 2, 0)),
    long!(b"UNITS,1,7\nK,a,1", b"1", 100_000, b"" => refused!(11, 1, 2, 0)),
    long!(b"UNITS,1,7\n", b"\n", 100_000, b"" => refused!(11, 1, 2, 0)),
    long!(b"UNITS,1,7\nK,a,1\nK,a,1\n", b"\n", 100_000, b"" => refused!(15, 1, 3, 2)),
    long!(b"", b"\n", 100_000, b"" => refused!(10, 1, 1, 0)),
    long!(b"", b"\0", 100_000, b"" => refused!(10, 1, 1, 0)),
    long!(b"", b"\xff", 100_000, b"\n" => refused!(10, 1, 1, 0)),
    long!(b"UNITS,1,7\n", b"\0", 100_000, b"\n" => refused!(11, 1, 2, 0)),
    long!(b"UNITS,1,7\nK,a,1\n", b"\xff", 100_000, b"" => refused!(11, 1, 3, 0)),
    long!(b"UNITS,1,7\n", b"X\n", 10_000, b"" => refused!(11, 1, 2, 0)),
];

const LONG_WIRES: [Long; 15] = [
    long!(b"", b",", 10_000, b"\n" => refused!(10, 1, 1, 0)),
    long!(b"WIRES,", b"1", 100_000, b"\n" => refused!(10, 1, 1, 0)),
    long!(b"WIRES,1", b",", 10_000, b"\n" => refused!(10, 1, 1, 0)),
    long!(b"WIRES,1\n", b",", 10_000, b"\n" => refused!(11, 1, 2, 0)),
    long!(b"WIRES,1\nW", b",", 10_000, b"\n" => refused!(12, 1, 2, 0)),
    long!(b"WIRES,1\nW,a,", b"7", 100_000, b",b,0\n" => refused!(13, 1, 2, 3)),
    long!(b"WIRES,1\nW,a,", b"0", 100_000, b",b,0\n" => refused!(13, 1, 2, 3)),
    long!(b"WIRES,1\nW,a,0,b,", b"1", 100_000, b"\n" => refused!(13, 1, 2, 5)),
    long!(b"WIRES,1\nW,", b"a", 100_000, b",0,b,0\n" => refused!(14, 1, 2, 2)),
    long!(b"WIRES,1\nW,a,0,", b"b", 100_000, b",0\n" => refused!(14, 1, 2, 4)),
    long!(b"WIRES,1\n", b"W", 100_000, b",a,0,b,0\n" => refused!(11, 1, 2, 0)),
    long!(b"WIRES,1\n", b"W,a,0,b,0\n", 10_000, b"" => refused!(19, 1, 3, 0)),
    long!(b"WIRES,1\n", b"\n", 100_000, b"" => refused!(11, 1, 2, 0)),
    long!(b"WIRES,1\nW,a,0,b,0\n", b"\0", 100_000, b"\n" => refused!(11, 1, 3, 0)),
    long!(b"WIRES,1\nW,a,0,b,0\n", b"\xff", 100_000, b"" => refused!(11, 1, 3, 0)),
];

#[test]
fn very_long_files(rt: HostRuntime) -> Result<(), Fail> {
    let heap = rt.alloc();
    check_rows(&rt, heap, &mut FileRig::new(heap), &LONG_UNITS)?;
    check_rows(&rt, heap, &mut no_wires(heap)?, &LONG_WIRES)
}

// What stands before and after the 256 values from 0 on, and what the load answers.
#[derive(Debug)]
struct Around {
    before: &'static [u8],
    after: &'static [u8],
    told: Told,
}

impl Row for Around {
    fn file(&self, heap: Global) -> Result<Vec<u8>, AllocError> {
        let mut text = self.before.to_vec(heap)?;
        text.extend(0..=255u8)?;
        text.extend_from_slice(self.after)?;
        Ok(text)
    }

    fn told(&self) -> Told {
        self.told
    }
}

macro_rules! around {
    ($before:expr, $after:expr => $told:expr) => {
        Around {
            before: $before,
            after: $after,
            told: $told,
        }
    };
}

const VALUES_IN_UNITS: [Around; 8] = [
    around!(b"", b"" => refused!(10, 1, 1, 0)),
    around!(b"UNITS,1,7", b"\n" => refused!(10, 1, 1, 0)),
    around!(b"UNITS,1,7\n", b"\n" => refused!(11, 1, 2, 0)),
    around!(b"UNITS,1,7\nK", b"\n" => refused!(11, 1, 2, 0)),
    around!(b"UNITS,1,7\nK,", b",1\n" => refused!(12, 1, 2, 0)),
    around!(b"UNITS,1,7\nK,a,", b"\n" => refused!(13, 1, 2, 3)),
    around!(b"UNITS,1,7\nG,a,0,0,", b"\n" => refused!(13, 1, 2, 5)),
    around!(b"UNITS,1,7\nK,a,1\n", b"" => refused!(11, 1, 3, 0)),
];

const VALUES_IN_WIRES: [Around; 6] = [
    around!(b"", b"" => refused!(10, 1, 1, 0)),
    around!(b"WIRES,1", b"\n" => refused!(10, 1, 1, 0)),
    around!(b"WIRES,1\n", b"\n" => refused!(11, 1, 2, 0)),
    around!(b"WIRES,1\nW,", b",0,b,0\n" => refused!(12, 1, 2, 0)),
    around!(b"WIRES,1\nW,a,0,b,", b"\n" => refused!(13, 1, 2, 5)),
    around!(b"WIRES,1\nW,a,0,b,0\n", b"" => refused!(11, 1, 3, 0)),
];

#[test]
fn all_byte_values_in_one_file(rt: HostRuntime) -> Result<(), Fail> {
    let heap = rt.alloc();
    check_rows(&rt, heap, &mut FileRig::new(heap), &VALUES_IN_UNITS)?;
    check_rows(&rt, heap, &mut no_wires(heap)?, &VALUES_IN_WIRES)
}
