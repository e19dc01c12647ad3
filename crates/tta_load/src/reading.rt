//! Reading a file.

ghost use Rattle.tta_load.specs.Held.{ReadEnds};

use crate::status::Status;
use tta_ports::{Files, ReadError};

/// How many bytes of a file are read at the most: 16 MiB.
const MOST_BYTES: u64 = 16_777_216;

/// The bytes of the file that a word names.
pub fn read_file<F: Files>(files: &mut F, name: &str, word: u8) -> Result<Vec<u8>, Status>
    ensures { ReadEnds name.now word (F.world files.old) (F.world files.new) (λ v. v.items) result }
{
    match files.read(name, MOST_BYTES) {
        Ok(bytes) => Ok(bytes),
        Err(ReadError::Failed) => Err(Status::ReadFault { word }),
        Err(ReadError::TooLong { .. }) => Err(Status::TooLong { word }),
        Err(ReadError::NoMemory) => Err(Status::NoMemory),
    }
}
