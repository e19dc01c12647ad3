//! The host's files.

ghost use Rattle.std.specs.Prelude.{◌≡◌, ◌≤◌, ◌<◌, ◌^◌, length, IfOk, None};
ghost use Rattle.tta_ports.specs.Files.{IfTooLong};

use crate::fault::{Fault, FaultLog};
use crate::transfer::{read_up_to, write_whole};
use crate::{Failed, Files, ReadError, WriteError};
use std::marker::Model;
use std::{fs, rt};
use tta_list::Name;

/// The files of the host, which the runtime reaches. What they hold is not shown.
///
/// Each call copies the name first, and answers `NoMemory` where that copy finds no memory. Every
/// error of the host is a fault.
#[derive(Drop)]
pub struct RealFiles<R> {
    rt: R,
    log: FaultLog,
}

impl<R> Model for RealFiles<R> {
    ghost use Rattle.std.specs.Prelude.{◌<◌, ◌^◌};
    ghost use Rattle.tta_ports.specs.declared.fault.FaultLog.{FaultLog};

    ghost Value = { FaultLog };

    ghost view = { λ f. f.log };

    ghost invariant = { λ f. f.log.count < 2 ^ 64 };
}

impl<R> RealFiles<R> {
    /// The files of the host that `rt` stands for, with no fault yet.
    pub fn new(rt: R) -> Self
        ensures count { result.count ≡ 0 }
        ensures latest { result.latest ≡ None }
    {
        RealFiles {
            rt,
            log: FaultLog::new(),
        }
    }
}

/// The bytes of a file of the host.
fn read_file<R: rt::Files + AllocGlobal>(
    rt: &R,
    name: &str,
    limit: u64,
) -> Result<Vec<u8>, ReadError>
    ensures within { IfOk result (λ v. length v.items ≤ limit) }
    ensures above { IfTooLong result (λ count. limit < count) }
{
    match fs::open(rt, name) {
        Ok(mut file) => read_up_to(rt.alloc(), &mut file, limit),
        Err(_) => Err(ReadError::Failed),
    }
}

/// Makes a file of the host hold the bytes.
fn write_file<R: rt::Files>(rt: &R, name: &str, bytes: &[u8]) -> Result<(), Failed> {
    match fs::create(rt, name) {
        Ok(mut file) => write_whole(&mut file, bytes),
        Err(_) => Err(Failed),
    }
}

impl<R: rt::Files + AllocGlobal> Files for RealFiles<R> {
    ghost world = { λ f. record { contents = None; faults = f.count; latest = f.latest } };

    fn read(&mut self, name: &str, limit: u64) -> Result<Vec<u8>, ReadError> {
        let copy = Name::new(self.rt.alloc(), name.as_bytes())?;
        match read_file(&self.rt, name, limit) {
            Ok(bytes) => Ok(bytes),
            Err(ReadError::Failed) => {
                self.log.add(Fault::Read(copy));
                Err(ReadError::Failed)
            }
            Err(error) => Err(error),
        }
    }

    fn write(&mut self, name: &str, bytes: &[u8]) -> Result<(), WriteError> {
        let copy = Name::new(self.rt.alloc(), name.as_bytes())?;
        match write_file(&self.rt, name, bytes) {
            Ok(()) => Ok(()),
            Err(Failed) => {
                self.log.add(Fault::Write(copy));
                Err(WriteError::Failed)
            }
        }
    }
}
