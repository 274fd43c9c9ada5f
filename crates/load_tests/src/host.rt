// Wires that a host adds by numbers.
use super::told::{Told, port, refused};
use refusal::Code;
use std::process::Abort;
use std::test::Fail;
use wiring::port::Port;
use wiring::table::Wiring;

const FAR: usize = usize::MAX;

// A wire from an output to an input, and what the call answers after the rows before it.
struct Added {
    from: Port,
    to: Port,
    told: Told,
}

macro_rules! added {
    ($from:expr, $to:expr => $told:expr) => {
        Added {
            from: $from,
            to: $to,
            told: $told,
        }
    };
}

const ADDED: [Added; 31] = [
    added!(port!(1, 2), port!(3, 4) => None),
    added!(port!(0, 0), port!(0, 0) => None),
    added!(port!(15, 7), port!(15, 7) => None),
    added!(port!(3, 4), port!(3, 3) => None),
    // An end out of range.
    added!(port!(16, 0), port!(2, 1) => refused!(18, 2, 2, 1)),
    added!(port!(0, 8), port!(2, 1) => refused!(18, 2, 2, 1)),
    added!(port!(16, 8), port!(2, 1) => refused!(18, 2, 2, 1)),
    added!(port!(0, 0), port!(16, 1) => refused!(18, 2, 16, 1)),
    added!(port!(0, 0), port!(2, 8) => refused!(18, 2, 2, 8)),
    added!(port!(0, 0), port!(16, 8) => refused!(18, 2, 16, 8)),
    added!(port!(16, 8), port!(16, 8) => refused!(18, 2, 16, 8)),
    added!(port!(17, 0), port!(9, 7) => refused!(18, 2, 9, 7)),
    added!(port!(0, 9), port!(9, 7) => refused!(18, 2, 9, 7)),
    added!(port!(FAR, 0), port!(2, 1) => refused!(18, 2, 2, 1)),
    added!(port!(0, FAR), port!(2, 1) => refused!(18, 2, 2, 1)),
    added!(port!(0, 0), port!(FAR, 1) => refused!(18, 2, FAR, 1)),
    added!(port!(0, 0), port!(1, FAR) => refused!(18, 2, 1, FAR)),
    added!(port!(FAR, FAR), port!(FAR, FAR) => refused!(18, 2, FAR, FAR)),
    // An input that is wired.
    added!(port!(1, 2), port!(3, 4) => refused!(19, 2, 3, 4)),
    added!(port!(5, 5), port!(3, 4) => refused!(19, 2, 3, 4)),
    added!(port!(3, 4), port!(3, 4) => refused!(19, 2, 3, 4)),
    added!(port!(0, 1), port!(0, 0) => refused!(19, 2, 0, 0)),
    added!(port!(15, 7), port!(15, 7) => refused!(19, 2, 15, 7)),
    // Both.
    added!(port!(16, 0), port!(3, 4) => refused!(18, 2, 3, 4)),
    added!(port!(0, 8), port!(3, 4) => refused!(18, 2, 3, 4)),
    added!(port!(FAR, 0), port!(15, 7) => refused!(18, 2, 15, 7)),
    // Inputs that were refused before, and neighbours of wired ones.
    added!(port!(0, 0), port!(2, 1) => None),
    added!(port!(15, 7), port!(9, 7) => None),
    added!(port!(1, 2), port!(3, 5) => None),
    added!(port!(1, 2), port!(4, 4) => None),
    added!(port!(1, 2), port!(2, 1) => refused!(19, 2, 2, 1)),
];

// Every input has the source that it had, but one that was wired since.
fn differ_at_most_at(
    rt: &impl Abort,
    before: &Wiring,
    after: &Wiring,
    wired: Option<(Port, Port)>,
) -> Result<(), Fail> {
    for unit in 0..17 {
        for port in 0..9 {
            let at = Port { unit, port };
            let source = match wired {
                Some((from, to)) if to == at => Some(from),
                _ => before.source(at),
            };
            assert_eq!(rt;
                after.source(at),
                source,
                "unit {unit}, input {port}, wired since {wired:?}"
            );
        }
    }
    Ok(())
}

#[test]
fn wires_by_numbers(rt: HostRuntime) -> Result<(), Fail> {
    let mut wiring = Wiring::new();
    for Added { from, to, told } in &ADDED {
        let before = wiring;
        let answer = wiring.add(*from, *to).err().map(Code::from);
        assert_eq!(rt; answer, *told, "{from:?} {to:?}");
        let wired = told.is_none().then_some((*from, *to));
        differ_at_most_at(&rt, &before, &wiring, wired)?;
    }
    assert_eq!(rt; wiring.source(port!(FAR, FAR)), None);
    Ok(())
}
