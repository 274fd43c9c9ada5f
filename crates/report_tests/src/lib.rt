// What is printed of units, of wires and of files that are refused, on examples.
#![tactic(auto)]

#[cfg(test)]
mod tests {
    use file_rig::table::FileRig;
    use kinds::design::Design;
    use lines::fault::{FileFault, LineFault};
    use load::fault::LoadFault;
    use load::units::load_units;
    use load::wires::load_wires;
    use names::name::Name;
    use report::no_memory::NoMemory;
    use report::refused::{FileKind, RefusedFile};
    use report::unit::UnitText;
    use report::wire::{EndText, WireText};
    use std::alloc::Global;
    use std::fmt;
    use std::process::Abort;
    use std::test::Fail;
    use wiring::table::Wiring;

    // The units between which every wires file below is read.
    const BOAT: &[u8] = b"UNITS,1,5\nK,draw,1\nG,net,1,-1,0\nI,tank,5,0,20,100\n";

    // Loads a file, a wires file between the units of the boat, and answers its fault.
    fn fault_of(heap: Global, file: FileKind, bytes: &[u8]) -> Result<FileFault, Fail> {
        let mut rig = FileRig::new(heap);
        let answer = match file {
            FileKind::Units => load_units(bytes, &mut rig).map(|_| ()),
            FileKind::Wires => {
                load_units(BOAT, &mut rig)?;
                load_wires(bytes, &rig, &mut Wiring::new()).map_err(LoadFault::from)
            }
        };
        match answer {
            Ok(()) => Err(Fail::new("the file is not refused")),
            Err(LoadFault::Refused(fault)) => Ok(fault),
            Err(LoadFault::NoMemory) => Err(Fail::new("no memory")),
        }
    }

    // What is printed of a value.
    fn check_text<T: fmt::Display>(
        rt: &impl Abort,
        heap: Global,
        value: &T,
        expected: &str,
    ) -> Result<(), Fail> {
        let text = format!(in heap; "{value}")?;
        assert_eq!(rt; text.as_str(), expected);
        Ok(())
    }

    // A file that is refused, and what is printed of it.
    type Case = (FileKind, &'static [u8], &'static str);

    // Loads each file, and compares what is printed of it.
    fn check_cases(rt: &impl Abort, heap: Global, cases: &[Case]) -> Result<(), Fail> {
        for (file, bytes, expected) in cases {
            let refused = RefusedFile {
                path: "boat.csv",
                file: *file,
                bytes: *bytes,
                fault: fault_of(heap, *file, *bytes)?,
            };
            check_text(rt, heap, &refused, *expected)?;
        }
        Ok(())
    }

    // First lines, and lines that begin with no letter of their file or are not ended.
    #[test]
    fn first_lines_and_letters(rt: HostRuntime) -> Result<(), Fail> {
        let cases: [Case; 10] = [
            (
                FileKind::Units,
                b"",
                "load refused 10 1 1 0: boat.csv:1: no line feed ends the first line",
            ),
            (
                FileKind::Units,
                b"UNITS,1,5",
                "load refused 10 1 1 0: boat.csv:1: no line feed ends the first line",
            ),
            (
                FileKind::Units,
                b"UNITZ,1,5\nK,draw,1\n",
                "load refused 10 1 1 0: boat.csv:1: 'UNITZ,1,5' is not UNITS,1,cap with cap 1 to 1000000",
            ),
            (
                FileKind::Wires,
                b"WIRES,1",
                "load refused 10 1 1 0: boat.csv:1: no line feed ends the first line",
            ),
            (
                FileKind::Wires,
                b"\nWIRES,1\n",
                "load refused 10 1 1 0: boat.csv:1: '' is not WIRES,1",
            ),
            (
                FileKind::Units,
                b"UNITS,1,5\nK,draw,1\nX,net,2\nK,tank,3\n",
                "load refused 11 1 3 0: boat.csv:3: the line begins with 'X', not I, G or K",
            ),
            (
                FileKind::Units,
                b"UNITS,1,5\nK,draw,1\n\nK,tank,3\n",
                "load refused 11 1 3 0: boat.csv:3: the line is empty",
            ),
            (
                FileKind::Units,
                b"UNITS,1,5\nK,draw,1",
                "load refused 11 1 2 0: boat.csv:2: no line feed ends the line",
            ),
            (
                FileKind::Wires,
                b"WIRES,1\nI,draw,0,net,0\n",
                "load refused 11 1 2 0: boat.csv:2: the line begins with 'I', not W",
            ),
            (
                FileKind::Wires,
                b"WIRES,1\nW,draw,0,net,0\nW,draw,0,net,1",
                "load refused 11 1 3 0: boat.csv:3: no line feed ends the line",
            ),
        ];
        check_cases(&rt, rt.alloc(), &cases)
    }

    // Numbers of fields, and names.
    #[test]
    fn counts_and_names(rt: HostRuntime) -> Result<(), Fail> {
        let cases: [Case; 10] = [
            (
                FileKind::Units,
                b"UNITS,1,5\nK,draw,1,2\n",
                "load refused 12 1 2 0: boat.csv:2: 4 fields, but a K line has 3",
            ),
            (
                FileKind::Units,
                b"UNITS,1,5\nG\n",
                "load refused 12 1 2 0: boat.csv:2: 1 field, but a G line has 5",
            ),
            (
                FileKind::Units,
                b"UNITS,1,5\nI,tank,5,0,20\n",
                "load refused 12 1 2 0: boat.csv:2: 5 fields, but an I line has 6",
            ),
            (
                FileKind::Wires,
                b"WIRES,1\nW,draw,0,net\n",
                "load refused 12 1 2 0: boat.csv:2: 4 fields, but a W line has 5",
            ),
            (
                FileKind::Units,
                b"UNITS,1,5\nK,u0,1\nK,u1,1\nK,u2,1\nK,u3,1\nK,u4,1\nK,u5,1\nK,u6,1\nK,u7,1\nK,u8,1\nK,u9,1\nK,u10,1\nK,u11,1\nK,u12,1\nK,u13,1\nK,u14,1\nK,u15,1\nK,u16,1\n",
                "load refused 16 1 18 0: boat.csv:18: there are 16 units already",
            ),
            (
                FileKind::Units,
                b"UNITS,1,5\nK,Winch,1\n",
                "load refused 14 1 2 2: boat.csv:2: field 2: 'Winch' is not a name, 1 to 8 of a-z and 0-9",
            ),
            (
                FileKind::Wires,
                b"WIRES,1\nW,draw,0,,0\n",
                "load refused 14 1 2 4: boat.csv:2: field 4: '' is not a name, 1 to 8 of a-z and 0-9",
            ),
            (
                FileKind::Units,
                b"UNITS,1,5\nK,winch,1\nK,winch,2\nK,draw,3\n",
                "load refused 15 1 3 2: boat.csv:3: field 2: name 'winch' is used already",
            ),
            (
                FileKind::Wires,
                b"WIRES,1\nW,winch,0,net,0\n",
                "load refused 17 1 2 2: boat.csv:2: field 2: no unit is named 'winch'",
            ),
            (
                FileKind::Wires,
                b"WIRES,1\nW,draw,0,winch,0\n",
                "load refused 17 1 2 4: boat.csv:2: field 4: no unit is named 'winch'",
            ),
        ];
        check_cases(&rt, rt.alloc(), &cases)
    }

    // Numbers with the range of their field, and numbers that disagree.
    #[test]
    fn numbers(rt: HostRuntime) -> Result<(), Fail> {
        let cases: [Case; 10] = [
            (
                FileKind::Units,
                b"UNITS,1,5\nI,tank,2147483648,0,20,100\n",
                "load refused 13 1 2 3: boat.csv:2: field 3: '2147483648' is not a whole number from -2147483648 to 2147483647",
            ),
            (
                FileKind::Units,
                b"UNITS,1,5\nI,tank,5,0,20,0\n",
                "load refused 13 1 2 6: boat.csv:2: field 6: '0' is not a whole number from 1 to 1000000",
            ),
            (
                FileKind::Units,
                b"UNITS,1,5\nG,net,1001,0,0\n",
                "load refused 13 1 2 3: boat.csv:2: field 3: '1001' is not a whole number from -1000 to 1000",
            ),
            (
                FileKind::Units,
                b"UNITS,1,5\nG,net,1,-1001,0\n",
                "load refused 13 1 2 4: boat.csv:2: field 4: '-1001' is not a whole number from -1000 to 1000",
            ),
            (
                FileKind::Units,
                b"UNITS,1,5\nG,net,1,-1,x\n",
                "load refused 13 1 2 5: boat.csv:2: field 5: 'x' is not a whole number from -2147483648 to 2147483647",
            ),
            (
                FileKind::Units,
                b"UNITS,1,5\nK,draw,\n",
                "load refused 13 1 2 3: boat.csv:2: field 3: '' is not a whole number from -2147483648 to 2147483647",
            ),
            (
                FileKind::Wires,
                b"WIRES,1\nW,draw,8,net,0\n",
                "load refused 13 1 2 3: boat.csv:2: field 3: '8' is not a whole number from 0 to 7",
            ),
            (
                FileKind::Wires,
                b"WIRES,1\nW,draw,0,net,-1\n",
                "load refused 13 1 2 5: boat.csv:2: field 5: '-1' is not a whole number from 0 to 7",
            ),
            (
                FileKind::Units,
                b"UNITS,1,5\nK,draw,1\nI,tank,9,10,20,1\n",
                "load refused 13 1 3 0: boat.csv:3: x 9 lies outside lo 10 to hi 20",
            ),
            (
                FileKind::Wires,
                b"WIRES,1\nW,draw,0,net,1\nW,tank,0,net,0\nW,tank,0,net,1\n",
                "load refused 19 1 4 0: boat.csv:4: input net.1 is wired already",
            ),
        ];
        check_cases(&rt, rt.alloc(), &cases)
    }

    // Bytes that are not printed as they are, and text that is cut.
    #[test]
    fn odd_bytes(rt: HostRuntime) -> Result<(), Fail> {
        let cases: [Case; 6] = [
            (
                FileKind::Units,
                b"UNITS,1,5\nK\0,draw,1\n",
                "load refused 11 1 2 0: boat.csv:2: the line begins with 'K\\x00', not I, G or K",
            ),
            (
                FileKind::Units,
                b"UNITS,1,5\r\n",
                "load refused 10 1 1 0: boat.csv:1: 'UNITS,1,5\\x0d' is not UNITS,1,cap with cap 1 to 1000000",
            ),
            (
                FileKind::Units,
                b"UNITS,1,5\nK,\x80\xff\x7f~ ,1\n",
                "load refused 14 1 2 2: boat.csv:2: field 2: '\\x80\\xff\\x7f~ ' is not a name, 1 to 8 of a-z and 0-9",
            ),
            (
                FileKind::Units,
                b"UNITS,1,5\nK,a'b\\c,1\n",
                "load refused 14 1 2 2: boat.csv:2: field 2: 'a\\'b\\\\c' is not a name, 1 to 8 of a-z and 0-9",
            ),
            (
                FileKind::Units,
                b"UNITS,1,5\nK,draw,9999999999999999999999999999999999999999\n",
                "load refused 13 1 2 3: boat.csv:2: field 3: '9999999999999999999999999999999999999999' is not a whole number from -2147483648 to 2147483647",
            ),
            (
                FileKind::Units,
                b"UNITS,1,5\nK,draw,99999999999999999999999999999999999999998\n",
                "load refused 13 1 2 3: boat.csv:2: field 3: '9999999999999999999999999999999999999999'.. is not a whole number from -2147483648 to 2147483647",
            ),
        ];
        check_cases(&rt, rt.alloc(), &cases)
    }

    // A fault with field 0, which a host may make and no load answers: no field is told.
    #[test]
    fn no_field(rt: HostRuntime) -> Result<(), Fail> {
        let refused = RefusedFile {
            path: "boat.csv",
            file: FileKind::Units,
            bytes: BOAT,
            fault: FileFault {
                line: 2,
                fault: LineFault::NoUnit { field: 0 },
            },
        };
        check_text(
            &rt,
            rt.alloc(),
            &refused,
            "load refused 17 1 2 0: boat.csv:2: no unit is named 'K'",
        )
    }

    // The name with this text.
    fn name(text: &[u8]) -> Result<Name, Fail> {
        Ok(Name::new(text).ok_or("not a name")?)
    }

    // Units of each kind, a wire, and want of memory.
    #[test]
    fn units_and_wires(rt: HostRuntime) -> Result<(), Fail> {
        let heap = rt.alloc();
        let unit = UnitText {
            number: 2,
            name: name(b"tank")?,
            design: Design::Integrator {
                x: 5,
                lo: 0,
                hi: 20,
                m: 100,
            },
        };
        check_text(
            &rt,
            heap,
            &unit,
            "unit 2 = integrator tank: x 5, lo 0, hi 20, m 100",
        )?;
        let unit = UnitText {
            number: 1,
            name: name(b"net")?,
            design: Design::Gain { a: 1, b: -1, c: 0 },
        };
        check_text(&rt, heap, &unit, "unit 1 = gain net: a 1, b -1, c 0")?;
        let unit = UnitText {
            number: 0,
            name: name(b"draw")?,
            design: Design::Constant { v: 1 },
        };
        check_text(&rt, heap, &unit, "unit 0 = constant draw: v 1")?;
        let wire = WireText {
            from: EndText {
                name: name(b"draw")?,
                port: 0,
            },
            to: EndText {
                name: name(b"net")?,
                port: 1,
            },
        };
        check_text(&rt, heap, &wire, "wire draw.0 -> net.1")?;
        check_text(
            &rt,
            heap,
            &NoMemory { path: "boat.csv" },
            "load refused: no memory for the units of boat.csv",
        )
    }
}
