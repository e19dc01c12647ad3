//! The machine of a command.

ghost use Rattle.std.specs.Prelude.{◌≡◌, ◌≤◌, ◌^◌, length, IfOk};
ghost use Rattle.tta_ops.specs.Set.{stated};
ghost use Rattle.tta_arch.specs.Over.{StandsOver};
ghost use Rattle.tta_load.specs.Held.{TakesBytes, FileEnds};
ghost use Rattle.tta_load.specs.Machines.{IsDescribed, RefusesMachine};

use crate::reading::read_file;
use crate::status::Status;
use sha2::{Digest, Sha256};
use std::alloc::Global;
use tta_machine::{Machine, MachineError, read_machine};
use tta_ops::UnitSet;
use tta_ports::Files;

/// A machine, with the digest of the text that describes it.
#[derive(Drop)]
pub struct MachineFile {
    pub machine: Machine,
    pub digest: [u8; 32],
}

/// The machine of a text, with the digest of the text.
pub fn described(alloc: Global, units: &UnitSet, text: &[u8]) -> Result<MachineFile, Status>
    requires { length text.now ≤ 2 ^ 24 }
    ensures takes { let U = stated unit_meaning units.now in
        TakesBytes (IsDescribed U) (RefusesMachine U) text.now (λ f. f) result }
    ensures over { IfOk result (λ f. StandsOver (stated unit_meaning units.now) f.machine) }
{
    match read_machine(alloc, text, units) {
        Ok(machine) => {
            let digest = Sha256::digest(text);
            Ok(MachineFile { machine, digest })
        }
        Err(MachineError::Refused { line, code }) => Err(Status::BadMachine { line, code }),
        Err(MachineError::NoMemory) => Err(Status::NoMemory),
    }
}

/// The machine of the file that a word names.
pub fn machine_file<F: Files>(
    alloc: Global,
    units: &UnitSet,
    files: &mut F,
    name: &str,
    word: u8,
) -> Result<MachineFile, Status>
    ensures ends { let U = stated unit_meaning units.now in
        FileEnds (IsDescribed U) (RefusesMachine U) name.now word
        (F.world files.old) (F.world files.new) (λ f. f) result }
    ensures over { IfOk result (λ f. StandsOver (stated unit_meaning units.now) f.machine) }
{
    let text = read_file(files, name, word)?;
    described(alloc, units, text.as_slice())
}

/// How many data words a machine has.
pub fn data_words(machine: &Machine) -> u32
    ensures { result ≡ machine.now.data_words }
{
    machine.data_words
}
