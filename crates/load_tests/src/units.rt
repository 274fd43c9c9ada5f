// Units files: what is refused, where and why, and what the rig holds after a load.
use super::told::{
    BadLine, Beginning, Number, Whole, bad, check_bad_line, check_files, check_numbers, loaded,
    number, refused, whole,
};
use file_rig::table::FileRig;
use load::units::load_units;
use refusal::Code;
use rig::Rig;
use rig::cause::RigFault;
use std::process::Abort;
use std::test::Fail;

// Files that are refused by their first line.
const BAD_FIRST: [&[u8]; 48] = [
    b"",
    b"\n",
    b"\n\n",
    b"\nUNITS,1,5\n",
    b"UNITS,1,5",
    b"UNITS,1,5\r",
    b"UNITS,1,5K,a,1",
    b"\r\n",
    b"UNITS,1,5\r\n",
    b"UNITS,1,5\r\nK,a,1\r\n",
    b"UNITS,1,5 \n",
    b"UNITS,1,5\t\n",
    b" UNITS,1,5\n",
    b"UNITS ,1,5\n",
    b"UNITS,1 ,5\n",
    b"UNITS, 1,5\n",
    b"UNITS,1, 5\n",
    b"UNITS\n",
    b"UNITS,\n",
    b"UNITS,1\n",
    b"UNITS,1,\n",
    b"UNITS,1,5,\n",
    b"UNITS,1,5,5\n",
    b"UNITS,1,,5\n",
    b"UNITS,,5\n",
    b",1,5\n",
    b",,\n",
    b"UNITS,1,0\n",
    b"UNITS,1,1000001\n",
    b"UNITS,1,2147483647\n",
    b"UNITS,1,2147483648\n",
    b"UNITS,1,01\n",
    b"UNITS,1,+1\n",
    b"UNITS,1,-1\n",
    b"UNITS,1,-0\n",
    b"UNITS,1,1e3\n",
    b"UNITS,1,x\n",
    b"UNITS,0,5\n",
    b"UNITS,2,5\n",
    b"UNITS,01,5\n",
    b"UNITS,11,5\n",
    b"units,1,5\n",
    b"Units,1,5\n",
    b"UNIT,1,5\n",
    b"UNITSS,1,5\n",
    b"WIRES,1,5\n",
    b"WIRES,1\n",
    b"\xef\xbb\xbfUNITS,1,5\n",
];

// A file that is read: its cap and how many units it has.
struct Read {
    text: &'static [u8],
    cap: u32,
    units: usize,
}

macro_rules! read {
    ($text:expr, $cap:expr, $units:expr) => {
        Read {
            text: $text,
            cap: $cap,
            units: $units,
        }
    };
}

const READ: [Read; 11] = [
    read!(b"UNITS,1,1\n", 1, 0),
    read!(b"UNITS,1,2\n", 2, 0),
    read!(b"UNITS,1,10\n", 10, 0),
    read!(b"UNITS,1,999999\n", 999_999, 0),
    read!(b"UNITS,1,1000000\n", 1_000_000, 0),
    read!(b"UNITS,1,5\nK,a,1\n", 5, 1),
    read!(b"UNITS,1,5\nK,old,1\n", 5, 1),
    read!(b"UNITS,1,5\nK,a,1\nK,aa,1\nK,b,1\n", 5, 3),
    read!(
        b"UNITS,1,6\nG,a,1,1,1\nI,b,0,0,0,1\nK,c,0\nG,d,0,0,0\n",
        6,
        4
    ),
    read!(
        b"UNITS,1,7\nK,a,1\nK,b,1\nK,c,1\nK,d,1\nK,e,1\nK,f,1\nK,g,1\nK,h,1\nK,i,1\nK,j,1\nK,k,1\nK,l,1\nK,m,1\nK,n,1\nK,o,1\n",
        7,
        15
    ),
    read!(
        b"UNITS,1,8\nK,a,1\nK,b,1\nK,c,1\nK,d,1\nK,e,1\nK,f,1\nK,g,1\nK,h,1\nK,i,1\nK,j,1\nK,k,1\nK,l,1\nK,m,1\nK,n,1\nK,o,1\nI,p,0,0,0,1\n",
        8,
        16
    ),
];

// Files that are refused after their first line.
const BAD_FILES: [Whole; 22] = [
    whole!(b"UNITS,1,5\n\n", 0 => refused!(11, 1, 2, 0)),
    whole!(b"UNITS,1,5\n\n\n", 0 => refused!(11, 1, 2, 0)),
    whole!(b"UNITS,1,5\n\nK,a,1\n", 0 => refused!(11, 1, 2, 0)),
    whole!(b"UNITS,1,5\nK,a,1\n\n", 0 => refused!(11, 1, 3, 0)),
    whole!(b"UNITS,1,5\nK,a,1", 0 => refused!(11, 1, 2, 0)),
    whole!(b"UNITS,1,5\nK", 0 => refused!(11, 1, 2, 0)),
    whole!(b"UNITS,1,5\nK,a,1\n ", 0 => refused!(11, 1, 3, 0)),
    whole!(b"UNITS,1,5\nK,a,1\nK,b,1", 0 => refused!(11, 1, 3, 0)),
    whole!(b"UNITS,1,5\nK,a,1\r\n", 0 => refused!(13, 1, 2, 3)),
    whole!(b"UNITS,1,5\r\nK,a,1\r\n", 0 => refused!(10, 1, 1, 0)),
    whole!(b"UNITS,1,5\nUNITS,1,5\n", 0 => refused!(11, 1, 2, 0)),
    whole!(b"UNITS,1,5\nK,Bad,1\nX\n", 0 => refused!(14, 1, 2, 2)),
    whole!(b"UNITS,1,5\nX\nK,Bad,1\n", 0 => refused!(11, 1, 2, 0)),
    whole!(b"UNITS,1,5\nK,a,1\nK,b\nK,a,1\nX", 0 => refused!(12, 1, 3, 0)),
    whole!(b"UNITS,1,5\nK,a,1\nK,b,1\nK,c,x\n", 0 => refused!(13, 1, 4, 3)),
    whole!(b"UNITS,1,5\nK,a,1\nK,b,1\nI,c,1,2,3,1\nX\n", 0 => refused!(13, 1, 4, 0)),
    whole!(b"UNITS,1,5\nK,a,1\nK,a,1\n", 0 => refused!(15, 1, 3, 2)),
    whole!(b"UNITS,1,5\nI,a,0,0,0,1\nK,b,1\nG,a,0,0,0\n", 0 => refused!(15, 1, 4, 2)),
    whole!(b"UNITS,1,5\nK,a,1\nK,b,1\nK,b,x\nK,a,1\n", 0 => refused!(15, 1, 4, 2)),
    whole!(b"UNITS,1,0\nX\n", 0 => refused!(10, 1, 1, 0)),
    whole!(b"WIRES,1\nW,old,0,old,0\n", 0 => refused!(10, 1, 1, 0)),
    whole!(
        b"UNITS,1,7\nK,a,1\nK,b,1\nK,c,1\nK,d,1\nK,e,1\nK,f,1\nK,g,1\nK,h,1\nK,i,1\nK,j,1\nK,k,1\nK,l,1\nK,m,1\nK,n,1\nK,o,1\nK,p,1\nK,q,1\nX\n",
        0 => refused!(16, 1, 18, 0)
    ),
];

#[test]
fn whole_units_files(rt: HostRuntime) -> Result<(), Fail> {
    let mut rig = FileRig::new(rt.alloc());
    check_files(&rt, rt.alloc(), &mut rig, &BAD_FIRST, &BAD_FILES)?;
    for read in &READ {
        let Read { text, cap, units } = *read;
        let answer = load_units(text, &mut rig);
        assert_eq!(rt; (answer, rig.units()), (Ok(cap), units), "{text:?}");
    }
    Ok(())
}

// Beginnings of files, each with a unit named used, and the number of the line that follows.
const BEFORE: [Beginning; 3] = [
    (b"UNITS,1,7\nK,used,4\n", 3),
    (b"UNITS,1,7\nI,tank,2,0,20,100\nK,used,4\nG,net,1,-1,0\n", 5),
    (
        b"UNITS,1,7\nK,b,1\nK,c,1\nK,d,1\nK,e,1\nK,f,1\nK,g,1\nK,h,1\nK,i,1\nK,j,1\nK,k,1\nK,l,1\nK,m,1\nK,n,1\nK,o,1\nK,used,4\n",
        17,
    ),
];

// What may follow a line that cannot be read.
const AFTER: [&[u8]; 4] = [b"", b"K,last,1\n", b"\n", b"X,Bad"];

// The beginning of a file that leaves no room for another unit.
const SIXTEEN: &[u8] =
    b"UNITS,1,7\nK,b,1\nK,c,1\nK,d,1\nK,e,1\nK,f,1\nK,g,1\nK,h,1\nK,i,1\nK,j,1\nK,k,1\nK,l,1\nK,m,1\nK,n,1\nK,o,1\nK,used,4\nK,q,1\n";

const BAD_LINES: [BadLine; 131] = [
    // The letter, or what stands for it.
    bad!(b"", 11, 0),
    bad!(b"A,a,1", 11, 0),
    bad!(b"W,used,0,used,0", 11, 0),
    bad!(b"X,a,1", 11, 0),
    bad!(b"k,a,1", 11, 0),
    bad!(b"g,a,0,0,0", 11, 0),
    bad!(b"i,a,0,0,0,1", 11, 0),
    bad!(b"KK,a,1", 11, 0),
    bad!(b"IG,a,0,0,0,1", 11, 0),
    bad!(b" K,a,1", 11, 0),
    bad!(b"K ,a,1", 11, 0),
    bad!(b"\tK,a,1", 11, 0),
    bad!(b",a,1", 11, 0),
    bad!(b",", 11, 0),
    bad!(b"0,a,1", 11, 0),
    bad!(b"\0,a,1", 11, 0),
    bad!(b"\xff,a,1", 11, 0),
    bad!(b"\xcbK,a,1", 11, 0),
    bad!(b"\r", 11, 0),
    bad!(b"K;a;1", 11, 0),
    bad!(b"#", 11, 0),
    bad!(b"UNITS,1,5", 11, 0),
    bad!(b"J,a,1", 11, 0),
    bad!(b"L,a,1", 11, 0),
    bad!(b"F,a,0,0,0", 11, 0),
    bad!(b"H,a,0,0,0", 11, 0),
    // The number of fields, whatever they hold.
    bad!(b"K", 12, 0),
    bad!(b"G", 12, 0),
    bad!(b"I", 12, 0),
    bad!(b"K,", 12, 0),
    bad!(b"K,a", 12, 0),
    bad!(b"K,a,1,", 12, 0),
    bad!(b"K,a,1,2", 12, 0),
    bad!(b"K,,,", 12, 0),
    bad!(b"K,Bad", 12, 0),
    bad!(b"K,used,x,y", 12, 0),
    bad!(b"K,a,0,0,0", 12, 0),
    bad!(b"K,a,0,0,0,1", 12, 0),
    bad!(b"G,a,0", 12, 0),
    bad!(b"G,a,0,0", 12, 0),
    bad!(b"G,a,0,0,0,", 12, 0),
    bad!(b"G,a,0,0,0,0", 12, 0),
    bad!(b"G,,,", 12, 0),
    bad!(b"G,used,x,y", 12, 0),
    bad!(b"G,a,0,0,0,1", 12, 0),
    bad!(b"I,a,0", 12, 0),
    bad!(b"I,a,0,0,0", 12, 0),
    bad!(b"I,a,0,0,0,1,", 12, 0),
    bad!(b"I,a,0,0,0,1,1", 12, 0),
    bad!(b"I,,,,,,", 12, 0),
    bad!(b"I,Bad,x,y,z", 12, 0),
    // The name.
    bad!(b"K,,1", 14, 2),
    bad!(b"K,ninechars,1", 14, 2),
    bad!(b"K,123456789,1", 14, 2),
    bad!(b"K,Bad,1", 14, 2),
    bad!(b"K,baD,1", 14, 2),
    bad!(b"K,a b,1", 14, 2),
    bad!(b"K, a,1", 14, 2),
    bad!(b"K,a ,1", 14, 2),
    bad!(b"K,a_b,1", 14, 2),
    bad!(b"K,a-b,1", 14, 2),
    bad!(b"K,a.b,1", 14, 2),
    bad!(b"K,\x80,1", 14, 2),
    bad!(b"K,a\xff,1", 14, 2),
    bad!(b"K,\xc3\xa9,1", 14, 2),
    bad!(b"K,\0,1", 14, 2),
    bad!(b"K,a\0,1", 14, 2),
    bad!(b"K,a\r,1", 14, 2),
    bad!(b"K,`,1", 14, 2),
    bad!(b"K,{,1", 14, 2),
    bad!(b"K,/,1", 14, 2),
    bad!(b"K,:,1", 14, 2),
    bad!(b"K,A,1", 14, 2),
    bad!(b"K,Used,1", 14, 2),
    bad!(b"K,used ,1", 14, 2),
    bad!(b"G,,0,0,0", 14, 2),
    bad!(b"G,ninechars,0,0,0", 14, 2),
    bad!(b"G,Bad,0,0,0", 14, 2),
    bad!(b"I,,0,0,0,1", 14, 2),
    bad!(b"I,ninechars,0,0,0,1", 14, 2),
    bad!(b"I,a\xe9,0,0,0,1", 14, 2),
    // A name that is used.
    bad!(b"K,used,1", 15, 2),
    bad!(b"G,used,0,0,0", 15, 2),
    bad!(b"I,used,0,0,0,1", 15, 2),
    // Numbers out of their ranges.
    bad!(b"G,a,-1001,0,0", 13, 3),
    bad!(b"G,a,1001,0,0", 13, 3),
    bad!(b"G,a,2147483647,0,0", 13, 3),
    bad!(b"G,a,-2147483648,0,0", 13, 3),
    bad!(b"G,a,0,-1001,0", 13, 4),
    bad!(b"G,a,0,1001,0", 13, 4),
    bad!(b"G,a,0,-2147483648,0", 13, 4),
    bad!(b"I,a,0,0,0,0", 13, 6),
    bad!(b"I,a,0,0,0,-1", 13, 6),
    bad!(b"I,a,0,0,0,1000001", 13, 6),
    bad!(b"I,a,0,0,0,2147483647", 13, 6),
    // x outside lo to hi.
    bad!(b"I,a,1,2,3,1", 13, 0),
    bad!(b"I,a,4,2,3,1", 13, 0),
    bad!(b"I,a,-1,0,0,1", 13, 0),
    bad!(b"I,a,1,0,0,1000000", 13, 0),
    bad!(b"I,a,2,3,1,1", 13, 0),
    bad!(b"I,a,-2147483648,-2147483647,0,1", 13, 0),
    bad!(b"I,a,2147483647,0,2147483646,1", 13, 0),
    bad!(b"I,a,0,2147483647,-2147483648,1", 13, 0),
    // More than one fault: the leftmost field counts, and all fields before x outside lo to hi.
    bad!(b"K,Bad,x", 14, 2),
    bad!(b"K,,", 14, 2),
    bad!(b"G,used,0,1001,0", 15, 2),
    bad!(b"K,used,x", 15, 2),
    bad!(b"K,used,2147483648", 15, 2),
    bad!(b"G,Bad,1001,1001,x", 14, 2),
    bad!(b"G,used,1001,0,0", 15, 2),
    bad!(b"G,used,0,0,x", 15, 2),
    bad!(b"G,a,1001,-1001,x", 13, 3),
    bad!(b"G,a,x,0,x", 13, 3),
    bad!(b"G,a,1000,-1001,x", 13, 4),
    bad!(b"G,a,0,y,x", 13, 4),
    bad!(b"G,,,,", 14, 2),
    bad!(b"G,a,,,", 13, 3),
    bad!(b"I,Bad,9,0,0,0", 14, 2),
    bad!(b"I,used,9,0,0,1", 15, 2),
    bad!(b"I,used,x,y,z,0", 15, 2),
    bad!(b"I,a,x,y,z,0", 13, 3),
    bad!(b"I,a,x,0,0,0", 13, 3),
    bad!(b"I,a,0,y,z,0", 13, 4),
    bad!(b"I,a,9,y,0,1", 13, 4),
    bad!(b"I,a,0,0,z,0", 13, 5),
    bad!(b"I,a,9,0,z,1", 13, 5),
    bad!(b"I,a,9,0,0,0", 13, 6),
    bad!(b"I,a,9,0,0,1000001", 13, 6),
    bad!(b"I,a,-1,0,0,x", 13, 6),
    bad!(b"I,,,,,", 14, 2),
    bad!(b"I,a,,,,", 13, 3),
];

#[test]
fn units_lines_refused(rt: HostRuntime) -> Result<(), Fail> {
    let mut rig = FileRig::new(rt.alloc());
    for bad in &BAD_LINES {
        check_bad_line(&rt, rt.alloc(), &mut rig, bad, &BEFORE, &AFTER, b"K")?;
        let BadLine { line, number, .. } = *bad;
        let first = if number > 12 { 16 } else { number };
        let answer = loaded(rt.alloc(), &mut rig, &[SIXTEEN, line, b"\n"])?;
        assert_eq!(rt; answer, (refused!(first, 1, 18, 0), 0), "{line:?}");
        if !line.is_empty() {
            let answer = loaded(rt.alloc(), &mut rig, &[SIXTEEN, line])?;
            assert_eq!(rt; answer, (refused!(11, 1, 18, 0), 0), "{line:?}");
        }
    }
    Ok(())
}

// Each number of a line of each kind: what stands before and after it, and its field.
const NUMBERS: [Number; 8] = [
    number!(b"UNITS,1,7\nK,a,", b"\n", 3),
    number!(b"UNITS,1,7\nG,a,", b",0,0\n", 3),
    number!(b"UNITS,1,7\nG,a,0,", b",0\n", 4),
    number!(b"UNITS,1,7\nG,a,0,0,", b"\n", 5),
    number!(b"UNITS,1,7\nI,a,", b",0,0,1\n", 3),
    number!(b"UNITS,1,7\nI,a,0,", b",0,1\n", 4),
    number!(b"UNITS,1,7\nI,a,0,0,", b",1\n", 5),
    number!(b"UNITS,1,7\nI,a,0,0,0,", b"\n", 6),
];

#[test]
fn each_number_of_each_kind(rt: HostRuntime) -> Result<(), Fail> {
    let mut rig = FileRig::new(rt.alloc());
    check_numbers(&rt, rt.alloc(), &mut rig, &NUMBERS)
}

// A unit as it was loaded: its name, its inputs, its output, its output with 1 and 2 at its inputs, and its longest step.
struct Unit {
    name: &'static [u8],
    inputs: usize,
    out: i32,
    fed: i32,
    longest: u32,
}

macro_rules! unit {
    ($name:expr, $inputs:expr, $out:expr, $fed:expr, $longest:expr) => {
        Unit {
            name: $name,
            inputs: $inputs,
            out: $out,
            fed: $fed,
            longest: $longest,
        }
    };
}

// Lines that are read, and the units that they describe.
const UNITS: [(&[u8], Unit); 26] = [
    (b"K,a,0\n", unit!(b"a", 0, 0, 0, 1_000_000)),
    (b"K,z,-1\n", unit!(b"z", 0, -1, -1, 1_000_000)),
    (b"K,0,10\n", unit!(b"0", 0, 10, 10, 1_000_000)),
    (b"K,9,-10\n", unit!(b"9", 0, -10, -10, 1_000_000)),
    (
        b"K,a,2147483647\n",
        unit!(b"a", 0, 2_147_483_647, 2_147_483_647, 1_000_000),
    ),
    (
        b"K,a,-2147483648\n",
        unit!(b"a", 0, -2_147_483_648, -2_147_483_648, 1_000_000),
    ),
    (b"K,abcdefgh,1\n", unit!(b"abcdefgh", 0, 1, 1, 1_000_000)),
    (b"K,ijklmnop,1\n", unit!(b"ijklmnop", 0, 1, 1, 1_000_000)),
    (b"K,qrstuvwx,1\n", unit!(b"qrstuvwx", 0, 1, 1, 1_000_000)),
    (b"K,yz012345,1\n", unit!(b"yz012345", 0, 1, 1, 1_000_000)),
    (b"K,6789,1\n", unit!(b"6789", 0, 1, 1, 1_000_000)),
    (b"K,use,1\n", unit!(b"use", 0, 1, 1, 1_000_000)),
    (b"K,used2,1\n", unit!(b"used2", 0, 1, 1, 1_000_000)),
    (b"G,net,0,0,0\n", unit!(b"net", 2, 0, 0, 1_000_000)),
    (b"G,net,1000,0,7\n", unit!(b"net", 2, 7, 1007, 1_000_000)),
    (b"G,net,-1000,0,7\n", unit!(b"net", 2, 7, -993, 1_000_000)),
    (b"G,net,0,1000,7\n", unit!(b"net", 2, 7, 2007, 1_000_000)),
    (b"G,net,0,-1000,7\n", unit!(b"net", 2, 7, -1993, 1_000_000)),
    (
        b"G,net,-1000,1000,2147483647\n",
        unit!(b"net", 2, 2_147_483_647, 2_147_483_647, 1_000_000),
    ),
    (
        b"G,net,-3,1,-2147483648\n",
        unit!(b"net", 2, -2_147_483_648, -2_147_483_648, 1_000_000),
    ),
    (
        b"G,net,3,-1,-2147483648\n",
        unit!(b"net", 2, -2_147_483_648, -2_147_483_647, 1_000_000),
    ),
    (b"I,tank,2,0,20,1\n", unit!(b"tank", 1, 2, 2, 1)),
    (b"I,tank,0,0,0,2\n", unit!(b"tank", 1, 0, 0, 2)),
    (
        b"I,tank,-5,-5,20,1000000\n",
        unit!(b"tank", 1, -5, -5, 1_000_000),
    ),
    (
        b"I,tank,2147483647,-2147483648,2147483647,999999\n",
        unit!(b"tank", 1, 2_147_483_647, 2_147_483_647, 999_999),
    ),
    (
        b"I,tank,-2147483648,-2147483648,-2147483648,1000\n",
        unit!(b"tank", 1, -2_147_483_648, -2_147_483_648, 1000),
    ),
];

// Inputs, outputs, and the value of output 0; then its value with 1 and 2 at the inputs.
fn shape(rig: &mut FileRig, at: usize) -> Result<(usize, usize, i32, i32), RigFault> {
    let ports = rig.ports(at)?;
    let out = rig.get(at, 0)?;
    if ports.inputs > 0 {
        rig.put(at, 0, 1)?;
    }
    if ports.inputs > 1 {
        rig.put(at, 1, 2)?;
    }
    Ok((ports.inputs, ports.outputs, out, rig.get(at, 0)?))
}

// What a step answers, and whether the unit is loose then.
fn stepped(rig: &mut FileRig, at: usize, h: u32) -> Result<(u32, bool), RigFault> {
    let ticks = rig.step(at, h)?;
    Ok((ticks, rig.status(at)?.loose))
}

fn is_named(rig: &FileRig, at: usize, name: &[u8]) -> bool {
    rig.name(at).is_some_and(|found| found.is(name)) && rig.find(name) == Some(at)
}

// The unit after so many others is as its line says.
fn check_unit(rt: &impl Abort, rig: &mut FileRig, at: usize, unit: &Unit) -> Result<(), Fail> {
    let Unit {
        name,
        inputs,
        out,
        fed,
        longest,
    } = *unit;
    assert!(rt; is_named(rig, at, name), "{name:?}");
    assert_eq!(rt; stepped(rig, at, longest)?, (longest, false), "{name:?}");
    assert_eq!(rt; shape(rig, at)?, (inputs, 1, out, fed), "{name:?}");
    if inputs == 1 && longest < 1_000_000 {
        rig.put(at, 0, 0)?;
        let over = stepped(rig, at, longest.saturating_add(1))?;
        assert_eq!(rt; over, (longest, true), "{name:?}");
    }
    Ok(())
}

#[test]
fn units_as_their_lines_say(rt: HostRuntime) -> Result<(), Fail> {
    let mut rig = FileRig::new(rt.alloc());
    for (line, unit) in &UNITS {
        let answer = loaded(rt.alloc(), &mut rig, &[b"UNITS,1,3\n", line])?;
        assert_eq!(rt; answer, (None, 1), "{line:?}");
        check_unit(&rt, &mut rig, 0, unit)?;
        let before = b"UNITS,1,4\nK,used,4\nG,u,1,1,1\nI,us,0,0,9,9\n";
        let answer = loaded(rt.alloc(), &mut rig, &[before, line])?;
        assert_eq!(rt; answer, (None, 4), "{line:?}");
        check_unit(&rt, &mut rig, 3, unit)?;
        assert!(rt; is_named(&rig, 0, b"used") && is_named(&rig, 2, b"us"));
        assert_eq!(rt; rig.find(b"old"), None);
    }
    Ok(())
}
