//! The program of the commands that show: it takes the words of the command line, reads a machine and
//! perhaps an image from the files of the host, puts what is asked for on the standard output, and
//! ends with the number of the status.
#![tactic(auto)]

use std::alloc::{AllocError, Global};
use std::env;
use std::io::ErrorKind;
use std::process::ExitCode;
use std::rt::Env;
use tta_inspect::show;
use tta_load::Status;
use tta_ops::{Arith, Compare, Divide, Logic, OpUnit, Shift, UnitSet};
use tta_ports::{Files, RealFiles, RealSink, Sink};
use tta_stdin::{Lines, RealLines};

/// The words after the program's name. A word that is not UTF-8 makes no command.
fn words_of(rt: &(impl Env + AllocGlobal)) -> Result<Vec<String>, Status> {
    let all = match env::args(rt) {
        Ok(all) => all,
        Err(e) if e.kind() == ErrorKind::OutOfMemory => return Err(Status::NoMemory),
        Err(_) => return Err(Status::Usage),
    };
    let mut words = Vec::new(rt.alloc());
    for word in all.skip(1) {
        if words.push(word).is_err() {
            return Err(Status::NoMemory);
        }
    }
    Ok(words)
}

/// Carries out the words over the five standard units.
fn run<F: Files, L: Lines, S: Sink>(
    alloc: Global,
    words: &Vec<String>,
    files: &mut F,
    lines: &mut L,
    sink: &mut S,
) -> Result<Status, AllocError> {
    let arith: Box<dyn OpUnit> = Box::new(alloc, Arith)?;
    let logic: Box<dyn OpUnit> = Box::new(alloc, Logic)?;
    let shift: Box<dyn OpUnit> = Box::new(alloc, Shift)?;
    let compare: Box<dyn OpUnit> = Box::new(alloc, Compare)?;
    let divide: Box<dyn OpUnit> = Box::new(alloc, Divide)?;
    let boxes = vec![in alloc; arith, logic, shift, compare, divide]?;
    if !UnitSet::fits(boxes.as_slice()) {
        return Ok(Status::NoMemory);
    }
    match UnitSet::new(alloc, boxes) {
        Ok(units) => Ok(show(alloc, words, &units, files, lines, sink)),
        Err(_) => Ok(Status::NoMemory),
    }
}

/// Carries out the command that the words name, and ends with its status as a number.
fn main(rt: HostRuntime) -> ExitCode {
    let mut files = RealFiles::new(&rt);
    let mut lines = RealLines::new(&rt);
    let mut sink = RealSink::new(&rt);
    let status = match words_of(&rt) {
        Ok(words) => run(rt.alloc(), &words, &mut files, &mut lines, &mut sink).unwrap_or(
            Status::NoMemory,
        ),
        Err(status) => status,
    };
    if status != Status::Ok {
        let _ = eprintln!(rt; "tta: {status}");
    }
    ExitCode::from(status.number())
}
