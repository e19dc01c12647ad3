//! The program with the operations of `tta_bits` beside the standard ones: it takes the words of the
//! command line, carries them out over the files of the host and its standard output, and ends with
//! the number of the status. The commands that show are carried out here too.
#![tactic(auto)]

mod circuits;

use std::alloc::{AllocError, Global};
use std::env;
use std::io::ErrorKind;
use std::process::ExitCode;
use std::rt::Env;
use tta_bits::Bits;
use tta_inspect::{is_named, show};
use tta_load::Status;
use tta_ops::{Arith, Compare, Divide, Logic, OpUnit, OpsError, Shift, UnitSet};
use tta_ports::{Files, RealFiles, RealSink, Sink};
use tta_stdin::{Lines, RealLines};
use tta_tool::tool;

/// The words after the program's name. A word that is not UTF-8 makes no command.
fn words_of(rt: &(impl Env + AllocGlobal)) -> Result<Vec<String>, Status> {
    let all = match env::args(rt) {
        Ok(all) => all,
        Err(e) if e.kind() == ErrorKind::OutOfMemory => return Err(Status::NoMemory),
        Err(_) => return Err(Status::Usage),
    };
    let mut words = Vec::new(rt.alloc());
    for word in all.skip(1) {
        if words.push(word).is_err() {
            return Err(Status::NoMemory);
        }
    }
    Ok(words)
}

/// Carries out the words over the units: those that `show` knows by their first, and all others as
/// `tool` does.
///
/// The commands of circuits are carried out beside them.
fn carry_out<F: Files, L: Lines, S: Sink>(
    alloc: Global,
    words: &Vec<String>,
    units: &UnitSet,
    files: &mut F,
    lines: &mut L,
    sink: &mut S,
) -> Status {
    match words {
        _ if circuits::is_asked(words) => circuits::put(alloc, words, units, files, lines, sink),
        _ if is_named(words) => show(alloc, words, units, files, lines, sink),
        _ => tool(alloc, words, units, files, sink),
    }
}

/// How a run ends: with a status, or with the operation for whose name the units are refused.
#[derive(Clone, Copy)]
enum Ended {
    With(Status),
    Refused(OpsError),
}

/// Carries out the words over the five standard units and that of `tta_bits`.
fn run<F: Files, L: Lines, S: Sink>(
    alloc: Global,
    words: &Vec<String>,
    files: &mut F,
    lines: &mut L,
    sink: &mut S,
) -> Result<Ended, AllocError> {
    let arith: Box<dyn OpUnit> = Box::new(alloc, Arith)?;
    let logic: Box<dyn OpUnit> = Box::new(alloc, Logic)?;
    let shift: Box<dyn OpUnit> = Box::new(alloc, Shift)?;
    let compare: Box<dyn OpUnit> = Box::new(alloc, Compare)?;
    let divide: Box<dyn OpUnit> = Box::new(alloc, Divide)?;
    let bits: Box<dyn OpUnit> = Box::new(alloc, Bits)?;
    let boxes = vec![in alloc; arith, logic, shift, compare, divide, bits]?;
    if !UnitSet::fits(boxes.as_slice()) {
        return Ok(Ended::With(Status::NoMemory));
    }
    match UnitSet::new(alloc, boxes) {
        Ok(units) => Ok(Ended::With(carry_out(alloc, words, &units, files, lines, sink))),
        Err(OpsError::NoMemory) => Ok(Ended::With(Status::NoMemory)),
        Err(error) => Ok(Ended::Refused(error)),
    }
}

/// How a program ends whose units may not stand together, as `./tta` does where it cannot build one.
const NO_UNITS: u8 = 70;

/// Carries out the command that the words name, and ends with its status as a number. Where the units
/// are refused for the name of an operation, it says of which, and ends with a number of its own.
fn main(rt: HostRuntime) -> ExitCode {
    let mut files = RealFiles::new(&rt);
    let mut lines = RealLines::new(&rt);
    let mut sink = RealSink::new(&rt);
    let ended = match words_of(&rt) {
        Ok(words) => run(rt.alloc(), &words, &mut files, &mut lines, &mut sink).unwrap_or(
            Ended::With(Status::NoMemory),
        ),
        Err(status) => Ended::With(status),
    };
    match ended {
        Ended::With(status) => {
            if status != Status::Ok {
                let _ = eprintln!(rt; "tta: {status}");
            }
            ExitCode::from(status.number())
        }
        Ended::Refused(error) => {
            let _ = eprintln!(rt; "tta: units: {error}");
            ExitCode::from(NO_UNITS)
        }
    }
}
