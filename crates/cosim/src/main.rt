// Checks a units file and a wires file, and prints what they say or why one of them is refused.
#![tactic(auto)]

use anyhow::Context;
use file_rig::table::FileRig;
use load::fault::LoadFault;
use load::units::load_units;
use load::wires::load_wires;
use names::name::Name;
use report::no_memory::NoMemory;
use report::refused::{FileKind, RefusedFile};
use report::unit::UnitText;
use report::wire::{EndText, WireText};
use rig::Rig;
use std::process::ExitCode;
use std::{env, fs, io};
use thiserror::Error;
use wiring::port::Port;
use wiring::table::Wiring;

const USAGE: &str = "usage: cosim check UNITS WIRES
prints the cap, the units and the wires that the two files tell, or the first line that is refused";

/// Why the program ends with status 1.
// No `Option` of an error: that `None` is told already it would not say.
#[derive(Debug, Drop, Error)]
enum Stop {
    /// What is wrong has been printed.
    #[error("what is wrong has been printed")]
    Told,
    /// Something outside the files failed, as a write to standard output.
    #[error(transparent)]
    Failed(#[from] anyhow::Error),
}

impl From<io::Error> for Stop {
    fn from(error: io::Error) -> Stop {
        Stop::Failed(error.into())
    }
}

/// Why the program ends, once what is wrong has been printed.
fn told(printed: io::Result<()>) -> Stop {
    printed.err().map_or(Stop::Told, Stop::from)
}

/// The bytes of a file; where they cannot be read, standard error tells its path.
fn read_file(rt: &HostRuntime, path: &str) -> Result<Vec<u8>, Stop> {
    fs::read(rt, path).map_err(|error| told(eprintln!(rt; "{path}: {error}")))
}

/// Tells why a file is refused.
fn refuse(rt: &HostRuntime, path: &str, file: FileKind, bytes: &[u8], fault: LoadFault) -> Stop {
    told(match fault {
        LoadFault::Refused(fault) => rt.println(RefusedFile {
            path,
            file,
            bytes,
            fault,
        }),
        LoadFault::NoMemory => rt.println(NoMemory { path }),
    })
}

/// The name of a unit of the rig.
fn name_of(rig: &FileRig, unit: usize) -> anyhow::Result<Name> {
    rig.name(unit).context("a unit has no name")
}

/// Prints every unit.
fn print_units(rt: &HostRuntime, rig: &FileRig) -> anyhow::Result<()> {
    for number in 0..rig.units() {
        let name = name_of(rig, number)?;
        let design = rig.design(number)?;
        rt.println(UnitText {
            number,
            name,
            design,
        })?;
    }
    Ok(())
}

/// An end of a wire by the name of its unit.
fn end_of(rig: &FileRig, end: Port) -> anyhow::Result<EndText> {
    Ok(EndText {
        name: name_of(rig, end.unit)?,
        port: end.port,
    })
}

/// Prints the wire to one input, where there is one.
fn print_wire(rt: &HostRuntime, rig: &FileRig, wiring: &Wiring, to: Port) -> anyhow::Result<()> {
    let Some(from) = wiring.source(to) else {
        return Ok(());
    };
    rt.println(WireText {
        from: end_of(rig, from)?,
        to: end_of(rig, to)?,
    })?;
    Ok(())
}

/// Prints every wire, in the order of the inputs that they lead to.
// By number, as a wiring answers: over rows, numbered twice by `enumerate`, it would be no plainer.
fn print_wires(rt: &HostRuntime, rig: &FileRig, wiring: &Wiring) -> anyhow::Result<()> {
    for unit in 0..16 {
        for port in 0..8 {
            print_wire(rt, rig, wiring, Port { unit, port })?;
        }
    }
    Ok(())
}

/// Loads both files, and prints what they say.
fn check(rt: &HostRuntime, units_path: &str, wires_path: &str) -> Result<(), Stop> {
    let units = read_file(rt, units_path)?;
    let wires = read_file(rt, wires_path)?;
    let mut rig = FileRig::new(rt.alloc());
    let most = load_units(&units, &mut rig).map_err(|fault| refuse(
        rt,
        units_path,
        FileKind::Units,
        &units,
        fault,
    ))?;
    let mut wiring = Wiring::new();
    load_wires(&wires, &rig, &mut wiring).map_err(|fault| refuse(
        rt,
        wires_path,
        FileKind::Wires,
        &wires,
        fault.into(),
    ))?;
    println!(rt; "cap = {most}")?;
    print_units(rt, &rig)?;
    print_wires(rt, &rig, &wiring)?;
    Ok(())
}

/// The words of the command line, the program's name first.
fn command_line(rt: &HostRuntime) -> io::Result<Vec<String>> {
    Ok(env::args(rt)?.collect(rt.alloc())?)
}

/// Does what the words of the command line say.
fn run(rt: &HostRuntime) -> Result<(), Stop> {
    let words = command_line(rt).map_err(|error| match error.kind() {
        // Words that are no text are wrong words too.
        io::ErrorKind::InvalidData => told(rt.eprintln(USAGE)),
        _ => Stop::from(error),
    })?;
    match words.as_slice() {
        [_, command, units, wires] if command.as_str() == "check" => {
            check(rt, units.as_str(), wires.as_str())
        }
        _ => Err(told(rt.eprintln(USAGE))),
    }
}

fn main(rt: HostRuntime) -> ExitCode {
    match run(&rt) {
        Ok(()) => ExitCode::SUCCESS,
        Err(Stop::Told) => ExitCode::FAILURE,
        Err(Stop::Failed(error)) => {
            let _ = eprintln!(rt; "cosim: {error}");
            ExitCode::FAILURE
        }
    }
}
