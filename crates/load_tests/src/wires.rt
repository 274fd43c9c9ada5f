// Wires files: what is refused, where and why, and what the wiring holds after a load.
use super::told::{
    BadLine, Beginning, Number, Whole, bad, check_bad_line, check_files, check_numbers, joined,
    loaded, no_wires, number, port, refused, whole,
};
use refusal::Code;
use std::alloc::{AllocError, Global};
use std::test::Fail;
use wiring::port::Port;

// Files that are refused by their first line.
const BAD_FIRST: [&[u8]; 24] = [
    b"",
    b"\n",
    b"\nWIRES,1\n",
    b"WIRES,1",
    b"WIRES,1\r",
    b"WIRES,1W,a,0,b,0",
    b"WIRES,1\r\n",
    b"WIRES,1 \n",
    b" WIRES,1\n",
    b"WIRES ,1\n",
    b"WIRES, 1\n",
    b"WIRES\n",
    b"WIRES,\n",
    b"WIRES,1,\n",
    b"WIRES,1,5\n",
    b"WIRES,0\n",
    b"WIRES,2\n",
    b"WIRES,01\n",
    b"WIRES,+1\n",
    b"wires,1\n",
    b"WIRE,1\n",
    b"UNITS,1\n",
    b"UNITS,1,5\n",
    b"UNITS,1,5\nK,a,1\n",
];

// Files that are read, and files that are refused after their first line.
const FILES: [Whole; 21] = [
    whole!(b"WIRES,1\n", 0 => None),
    whole!(b"WIRES,1\nW,a,0,b,0\n", 1 => None),
    whole!(b"WIRES,1\nW,used,7,used,7\n", 1 => None),
    whole!(b"WIRES,1\nW,a,0,b,0\nW,a,0,b,7\nW,a,0,a,0\n", 3 => None),
    whole!(b"WIRES,1\n\n", 0 => refused!(11, 1, 2, 0)),
    whole!(b"WIRES,1\n\nW,a,0,b,0\n", 0 => refused!(11, 1, 2, 0)),
    whole!(b"WIRES,1\nW,a,0,b,0\n\n", 0 => refused!(11, 1, 3, 0)),
    whole!(b"WIRES,1\nW,a,0,b,0", 0 => refused!(11, 1, 2, 0)),
    whole!(b"WIRES,1\nW", 0 => refused!(11, 1, 2, 0)),
    whole!(b"WIRES,1\nW,a,0,b,0\n ", 0 => refused!(11, 1, 3, 0)),
    whole!(b"WIRES,1\nW,a,0,b,0\nW,a,0,b,1", 0 => refused!(11, 1, 3, 0)),
    whole!(b"WIRES,1\nW,a,0,b,0\r\n", 0 => refused!(13, 1, 2, 5)),
    whole!(b"WIRES,1\nWIRES,1\n", 0 => refused!(11, 1, 2, 0)),
    whole!(b"WIRES,1\nW,Bad,0,b,0\nX\n", 0 => refused!(14, 1, 2, 2)),
    whole!(b"WIRES,1\nX\nW,Bad,0,b,0\n", 0 => refused!(11, 1, 2, 0)),
    whole!(b"WIRES,1\nW,a,0,b,0\nW,a,0,b\nW,a,0,b,0\nX", 0 => refused!(12, 1, 3, 0)),
    whole!(b"WIRES,1\nW,a,0,b,0\nW,a,0,b,1\nW,nobody,0,b,2\n", 0 => refused!(17, 1, 4, 2)),
    whole!(b"WIRES,1\nW,a,0,b,0\nW,a,0,b,0\n", 0 => refused!(19, 1, 3, 0)),
    whole!(b"WIRES,1\nW,a,0,b,0\nW,c,3,d,0\nW,used,7,b,0\nX\n", 0 => refused!(19, 1, 4, 0)),
    whole!(b"WIRES,1\nW,a,0,b,0\nW,a,0,b,1\nW,b,0,b,1\nW,a,0,b,0\n", 0 => refused!(19, 1, 4, 0)),
    whole!(b"WIRES,1\nW,a,0,b,0\nW,a,0,b,0,\n", 0 => refused!(12, 1, 3, 0)),
];

#[test]
fn whole_wires_files(rt: HostRuntime) -> Result<(), Fail> {
    let mut wires = no_wires(rt.alloc())?;
    check_files(&rt, rt.alloc(), &mut wires, &BAD_FIRST, &FILES)
}

// Beginnings of files, each with a wire to input 0 of the unit named used, and the number of the line that follows.
const BEFORE: [Beginning; 2] = [
    (b"WIRES,1\nW,tank,0,used,0\n", 3),
    (b"WIRES,1\nW,a,0,b,7\nW,tank,0,used,0\nW,a,1,b,6\n", 5),
];

// What may follow a line that cannot be read.
const AFTER: [&[u8]; 4] = [b"", b"W,z,0,z,0\n", b"\n", b"X,Bad"];

const BAD_LINES: [BadLine; 81] = [
    // The letter, or what stands for it.
    bad!(b"", 11, 0),
    bad!(b"A,a,1", 11, 0),
    bad!(b"K,a,1", 11, 0),
    bad!(b"G,a,0,0,0", 11, 0),
    bad!(b"I,a,0,0,0,1", 11, 0),
    bad!(b"X,a,0,b,0", 11, 0),
    bad!(b"w,a,0,b,0", 11, 0),
    bad!(b"WW,a,0,b,0", 11, 0),
    bad!(b" W,a,0,b,0", 11, 0),
    bad!(b"W ,a,0,b,0", 11, 0),
    bad!(b",a,0,b,0", 11, 0),
    bad!(b",,,,", 11, 0),
    bad!(b"\0,a,0,b,0", 11, 0),
    bad!(b"\xff,a,0,b,0", 11, 0),
    bad!(b"\r", 11, 0),
    bad!(b"V,a,0,b,0", 11, 0),
    bad!(b"WIRES,1", 11, 0),
    // The number of fields, whatever they hold.
    bad!(b"W", 12, 0),
    bad!(b"W,", 12, 0),
    bad!(b"W,a", 12, 0),
    bad!(b"W,a,0,b", 12, 0),
    bad!(b"W,a,0,b,0,", 12, 0),
    bad!(b"W,a,0,b,0,1", 12, 0),
    bad!(b"W,,,", 12, 0),
    bad!(b"W,,,,,", 12, 0),
    bad!(b"W,Bad,x,Bad", 12, 0),
    bad!(b"W,used,0,used,0,", 12, 0),
    // The names.
    bad!(b"W,,0,b,1", 14, 2),
    bad!(b"W,ninechars,0,b,1", 14, 2),
    bad!(b"W,Bad,0,b,1", 14, 2),
    bad!(b"W,a b,0,b,1", 14, 2),
    bad!(b"W,a_b,0,b,1", 14, 2),
    bad!(b"W,a\x80,0,b,1", 14, 2),
    bad!(b"W,\0,0,b,1", 14, 2),
    bad!(b"W,a ,0,b,1", 14, 2),
    bad!(b"W,a,0,,1", 14, 4),
    bad!(b"W,a,0,ninechars,1", 14, 4),
    bad!(b"W,a,0,Bad,1", 14, 4),
    bad!(b"W,a,0,b c,1", 14, 4),
    bad!(b"W,a,0,b_c,1", 14, 4),
    bad!(b"W,a,0,\xff,1", 14, 4),
    bad!(b"W,a,0,b\0,1", 14, 4),
    bad!(b"W,a,0, b,1", 14, 4),
    // Names of no unit.
    bad!(b"W,nobody,0,b,1", 17, 2),
    bad!(b"W,us,0,b,1", 17, 2),
    bad!(b"W,used2,0,b,1", 17, 2),
    bad!(b"W,1234567,0,b,1", 17, 2),
    bad!(b"W,a,0,nobody,1", 17, 4),
    bad!(b"W,a,0,use,1", 17, 4),
    bad!(b"W,a,0,usedd,1", 17, 4),
    bad!(b"W,a,0,tan,1", 17, 4),
    // Ports out of their range.
    bad!(b"W,a,8,b,1", 13, 3),
    bad!(b"W,a,-1,b,1", 13, 3),
    bad!(b"W,a,10,b,1", 13, 3),
    bad!(b"W,a,2147483647,b,1", 13, 3),
    bad!(b"W,a,0,b,8", 13, 5),
    bad!(b"W,a,0,b,-1", 13, 5),
    bad!(b"W,a,0,b,70", 13, 5),
    bad!(b"W,a,0,b,-2147483648", 13, 5),
    // An input that is wired.
    bad!(b"W,tank,0,used,0", 19, 0),
    bad!(b"W,tank,1,used,0", 19, 0),
    bad!(b"W,used,0,used,0", 19, 0),
    bad!(b"W,z,7,used,0", 19, 0),
    // More than one fault: the leftmost field counts, and all fields before an input that is wired.
    bad!(b"W,Bad,9,Bad,9", 14, 2),
    bad!(b"W,Bad,0,nobody,0", 14, 2),
    bad!(b"W,,,,", 14, 2),
    bad!(b"W,nobody,9,a,0", 17, 2),
    bad!(b"W,nobody,9,Bad,9", 17, 2),
    bad!(b"W,nobody,0,Bad,0", 17, 2),
    bad!(b"W,nobody,0,nobody,0", 17, 2),
    bad!(b"W,a,9,nobody,9", 13, 3),
    bad!(b"W,a,x,Bad,x", 13, 3),
    bad!(b"W,a,,,", 13, 3),
    bad!(b"W,a,9,b,9", 13, 3),
    bad!(b"W,a,0,Bad,9", 14, 4),
    bad!(b"W,a,0,,", 14, 4),
    bad!(b"W,a,0,nobody,9", 17, 4),
    bad!(b"W,Bad,0,used,0", 14, 2),
    bad!(b"W,nobody,0,used,0", 17, 2),
    bad!(b"W,a,8,used,0", 13, 3),
    bad!(b"W,a,0,used,8", 13, 5),
];

#[test]
fn wires_lines_refused(rt: HostRuntime) -> Result<(), Fail> {
    let mut wires = no_wires(rt.alloc())?;
    for bad in &BAD_LINES {
        check_bad_line(&rt, rt.alloc(), &mut wires, bad, &BEFORE, &AFTER, b"W")?;
    }
    Ok(())
}

// Each number of a line: what stands before and after it, and its field.
const NUMBERS: [Number; 2] = [
    number!(b"WIRES,1\nW,a,", b",b,0\n", 3),
    number!(b"WIRES,1\nW,a,0,b,", b"\n", 5),
];

#[test]
fn each_number_of_a_wire(rt: HostRuntime) -> Result<(), Fail> {
    let mut wires = no_wires(rt.alloc())?;
    check_numbers(&rt, rt.alloc(), &mut wires, &NUMBERS)
}

// The wires of a file: from an output to an input.
const WIRES: [(Port, Port); 8] = [
    (port!(2, 0), port!(3, 0)),
    (port!(2, 0), port!(3, 7)),
    (port!(2, 7), port!(3, 1)),
    (port!(15, 7), port!(0, 0)),
    (port!(0, 0), port!(15, 7)),
    (port!(4, 3), port!(4, 3)),
    (port!(7, 6), port!(8, 5)),
    (port!(14, 1), port!(7, 2)),
];

const WIRES_FILE: &[u8] =
    b"WIRES,1\nW,a,0,b,0\nW,a,0,b,7\nW,a,7,b,1\nW,z,7,used,0\nW,used,0,z,7\nW,winch,3,winch,3\nW,12345678,6,0,5\nW,abcdefgh,1,12345678,2\n";

#[test]
fn wires_as_their_lines_say(rt: HostRuntime) -> Result<(), Fail> {
    let mut wires = no_wires(rt.alloc())?;
    let answer = loaded(rt.alloc(), &mut wires, &[WIRES_FILE])?;
    assert_eq!(rt; answer, (None, 8));
    for (from, to) in &WIRES {
        assert_eq!(rt; wires.wiring.source(*to), Some(*from), "{to:?}");
    }
    Ok(())
}

const NAMES: [&[u8]; 16] = [
    b"used",
    b"tank",
    b"a",
    b"b",
    b"winch",
    b"net",
    b"draw",
    b"12345678",
    b"0",
    b"c",
    b"d",
    b"e",
    b"f",
    b"g",
    b"abcdefgh",
    b"z",
];

// A wires file with a wire to every input of every unit.
fn all_wired(heap: Global) -> Result<Vec<u8>, AllocError> {
    let mut text = joined(heap, &[b"WIRES,1\n"])?;
    for name in &NAMES {
        for port in b'0'..=b'7' {
            text.extend_from_slice(b"W,tank,")?;
            text.push(port)?;
            text.extend_from_slice(&joined(heap, &[b",", name, b","])?)?;
            text.extend_from_slice(&[port, b'\n'])?;
        }
    }
    Ok(text)
}

#[test]
fn every_input_wired(rt: HostRuntime) -> Result<(), Fail> {
    let mut wires = no_wires(rt.alloc())?;
    let all = all_wired(rt.alloc())?;
    let answer = loaded(rt.alloc(), &mut wires, &[&all])?;
    assert_eq!(rt; answer, (None, 128));
    for unit in 0..16 {
        for port in 0..8 {
            assert_eq!(rt;
                wires.wiring.source(Port { unit, port }),
                Some(Port { unit: 1, port })
            );
        }
    }
    let answer = loaded(rt.alloc(), &mut wires, &[&all, b"W,a,0,z,7\n"])?;
    assert_eq!(rt; answer, (refused!(19, 1, 130, 0), 0));
    Ok(())
}
