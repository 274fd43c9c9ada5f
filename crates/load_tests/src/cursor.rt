// A cursor by itself: which line it gives, and where it stands after each call.
use super::told::{Told, Wires, joined, no_wires, refused, sixteen};
use file_rig::table::FileRig;
use files::cursor::Cursor;
use lines::fault::{FileFault, LineFault};
use refusal::Code;
use rig::Rig;
use std::alloc::{AllocError, Global};
use std::process::Abort;
use std::test::Fail;

// Where a cursor stands: its line and its position.
fn place(cursor: &Cursor<'_>) -> (usize, usize) {
    (cursor.line(), cursor.position())
}

// A line, and the name that is read from it.
type Line = (&'static [u8], &'static [u8]);

// How many of the lines are read, what follows them, and what the next call answers.
struct Stop {
    count: usize,
    after: &'static [u8],
    told: Told,
}

macro_rules! stop {
    ($count:expr, $after:expr => $told:expr) => {
        Stop {
            count: $count,
            after: $after,
            told: $told,
        }
    };
}

// A first line, the first few of some lines, and what follows them.
fn begun(heap: Global, first: &[u8], lines: &[Line], stop: &Stop) -> Result<Vec<u8>, AllocError> {
    let mut file = joined(heap, &[first])?;
    for (text, _) in lines.iter().take(stop.count) {
        file.extend_from_slice(text)?;
    }
    file.extend_from_slice(stop.after)?;
    Ok(file)
}

// The name that a line has, which later lines are read against; none at the end of the file.
type Answer<'a> = Result<Option<&'a [u8]>, FileFault>;

// What a cursor reads lines for.
trait Reader {
    // A first line that is read.
    const FIRST: &'static [u8];

    // Whether the first line is read, and as what it says.
    fn heading(cursor: &mut Cursor<'_>) -> bool;

    // Reads the next line, and adds its unit where it has one.
    fn next<'a>(&mut self, cursor: &mut Cursor<'a>) -> Result<Answer<'a>, Fail>;
}

impl Reader for FileRig {
    const FIRST: &'static [u8] = b"UNITS,1,9\n";

    fn heading(cursor: &mut Cursor<'_>) -> bool {
        cursor.units_heading() == Ok(9)
    }

    fn next<'a>(&mut self, cursor: &mut Cursor<'a>) -> Result<Answer<'a>, Fail> {
        let answer = cursor.next_unit(self).transpose();
        if let Ok(Some(line)) = &answer {
            self.add(line.name(), line.design())?;
        }
        Ok(answer.map(|line| line.map(|line| line.name())))
    }
}

impl Reader for Wires {
    const FIRST: &'static [u8] = b"WIRES,1\n";

    fn heading(cursor: &mut Cursor<'_>) -> bool {
        cursor.wires_heading() == Ok(())
    }

    fn next<'a>(&mut self, cursor: &mut Cursor<'a>) -> Result<Answer<'a>, Fail> {
        let answer = cursor.next_wire(&self.rig).transpose();
        Ok(answer.map(|line| line.map(|line| line.target().name)))
    }
}

// Reads the lines after the first one, and where they stop. The cursor's place is checked before and after each call.
fn check_lines<'a, R: Reader>(
    rt: &impl Abort,
    reader: &mut R,
    cursor: &mut Cursor<'a>,
    lines: &[Line],
    stop: &Stop,
    end: usize,
) -> Result<(), Fail> {
    let Stop { count, after, told } = *stop;
    let (mut line, mut at) = place(cursor);
    for (text, name) in lines.iter().take(count) {
        assert_eq!(rt; place(cursor), (line, at), "{after:?}");
        let Ok(Some(found)) = reader.next(cursor)? else {
            return Err(Fail::new("a line is not read"));
        };
        assert_eq!(rt; found, *name);
        line = line.saturating_add(1);
        at = at.saturating_add(text.len());
    }
    assert_eq!(rt; place(cursor), (line, at), "{after:?}");
    let last = reader.next(cursor)?;
    assert!(rt; !matches!(last, Ok(Some(_))), "{after:?}");
    assert_eq!(rt; last.err().map(Code::from), told, "{after:?}");
    assert_eq!(rt; place(cursor), (line, end), "{after:?}");
    assert!(rt; matches!(reader.next(cursor)?, Ok(None)), "{after:?}");
    assert_eq!(rt; place(cursor), (line, end), "{after:?}");
    Ok(())
}

// A cursor over a first line, the first few of some lines, and what follows them.
fn check_walk<R: Reader>(
    rt: &impl Abort,
    heap: Global,
    reader: &mut R,
    lines: &[Line],
    stop: &Stop,
) -> Result<(), Fail> {
    let file = begun(heap, R::FIRST, lines, stop)?;
    let mut cursor = Cursor::new(&file);
    assert_eq!(rt; place(&cursor), (1, 0));
    assert!(rt; R::heading(&mut cursor));
    assert_eq!(rt; place(&cursor), (2, R::FIRST.len()));
    check_lines(rt, reader, &mut cursor, lines, stop, file.len())
}

// Lines of a units file, with their names.
const UNITS: [Line; 4] = [
    (b"K,a,1\n", b"a"),
    (b"I,tank,2,0,20,100\n", b"tank"),
    (b"G,net,1,-1,0\n", b"net"),
    (b"K,12345678,-2147483648\n", b"12345678"),
];

const UNITS_STOPS: [Stop; 12] = [
    stop!(0, b"" => None),
    stop!(1, b"" => None),
    stop!(4, b"" => None),
    stop!(0, b"\n" => refused!(11, 1, 2, 0)),
    stop!(0, b"K,a,1" => refused!(11, 1, 2, 0)),
    stop!(1, b"K,b\nK,c,1\n" => refused!(12, 1, 3, 0)),
    stop!(1, b"K,a,1\nK,c,1\nK,d,1\n" => refused!(15, 1, 3, 2)),
    stop!(2, b"K,Bad,1\n\n\n" => refused!(14, 1, 4, 2)),
    stop!(3, b"I,b,1,2,3,1\nX" => refused!(13, 1, 5, 0)),
    stop!(3, b"W,a,0,a,0\n" => refused!(11, 1, 5, 0)),
    stop!(4, b"K,b,x\nK,b,1\n" => refused!(13, 1, 6, 3)),
    stop!(4, b"K,b,1" => refused!(11, 1, 6, 0)),
];

#[test]
fn a_cursor_over_units(rt: HostRuntime) -> Result<(), Fail> {
    for stop in &UNITS_STOPS {
        let mut rig = FileRig::new(rt.alloc());
        check_walk(&rt, rt.alloc(), &mut rig, &UNITS, stop)?;
        assert_eq!(rt; rig.units(), stop.count);
    }
    Ok(())
}

// Lines of a wires file, with the names of the units that the wires lead to.
const WIRES: [Line; 3] = [
    (b"W,a,0,b,0\n", b"b"),
    (b"W,tank,7,winch,3\n", b"winch"),
    (b"W,used,3,12345678,7\n", b"12345678"),
];

const WIRES_STOPS: [Stop; 9] = [
    stop!(0, b"" => None),
    stop!(3, b"" => None),
    stop!(0, b"\n" => refused!(11, 1, 2, 0)),
    stop!(0, b"W,a,0,b,0" => refused!(11, 1, 2, 0)),
    stop!(1, b"W,a,0\nW,a,0,b,1\n" => refused!(12, 1, 3, 0)),
    stop!(1, b"W,nobody,0,b,0\n\n" => refused!(17, 1, 3, 2)),
    stop!(2, b"W,a,0,Bad,0\nX" => refused!(14, 1, 4, 4)),
    stop!(3, b"W,a,8,b,0\n" => refused!(13, 1, 5, 3)),
    stop!(3, b"W" => refused!(11, 1, 5, 0)),
];

#[test]
fn a_cursor_over_wires(rt: HostRuntime) -> Result<(), Fail> {
    let mut wires = no_wires(rt.alloc())?;
    for stop in &WIRES_STOPS {
        check_walk(&rt, rt.alloc(), &mut wires, &WIRES, stop)?;
    }
    Ok(())
}

// The name in a first line: it is the file's, and the cursor that read it is gone.
fn first_name<'a>(file: &'a [u8], rig: &FileRig) -> Answer<'a> {
    let mut cursor = Cursor::new(file);
    cursor.units_heading()?;
    let line = cursor.next_unit(rig).transpose()?;
    Ok(line.map(|line| line.name()))
}

fn first_end<'a>(file: &'a [u8], rig: &FileRig) -> Answer<'a> {
    let mut cursor = Cursor::new(file);
    cursor.wires_heading()?;
    let line = cursor.next_wire(rig).transpose()?;
    Ok(line.map(|line| line.source().name))
}

#[test]
fn names_outlive_the_cursor(rt: HostRuntime) -> Result<(), Fail> {
    let rig = sixteen(rt.alloc())?;
    let end = first_end(b"WIRES,1\nW,winch,0,b,0\n", &rig);
    assert_eq!(rt; end, Ok(Some(b"winch".as_slice())));
    let empty = FileRig::new(rt.alloc());
    let name = first_name(b"UNITS,1,9\nK,draw,1\n", &empty);
    assert_eq!(rt; name, Ok(Some(b"draw".as_slice())));
    Ok(())
}

const NO_HEADING: [&[u8]; 5] = [
    b"",
    b"\n",
    b"K,a,1\n",
    b"UNITS,1,0\nK,a,1\n",
    b"WIRES,2\nW,a,0,b,0\n",
];

#[test]
fn a_cursor_without_a_heading(rt: HostRuntime) -> Result<(), Fail> {
    let rig = sixteen(rt.alloc())?;
    let fault = FileFault {
        line: 1,
        fault: LineFault::FirstLine,
    };
    for file in &NO_HEADING {
        let mut units = Cursor::new(file);
        assert_eq!(rt; units.units_heading(), Err(fault), "{file:?}");
        assert_eq!(rt; place(&units), (1, file.len()), "{file:?}");
        assert!(rt; units.next_unit(&rig).is_none(), "{file:?}");
        let mut wires = Cursor::new(file);
        assert_eq!(rt; wires.wires_heading(), Err(fault), "{file:?}");
        assert_eq!(rt; place(&wires), (1, file.len()), "{file:?}");
        assert!(rt; wires.next_wire(&rig).is_none(), "{file:?}");
    }
    Ok(())
}
