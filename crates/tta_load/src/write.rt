//! Writing what a command has made.

ghost use Rattle.tta_load.specs.Ends.{WriteEnds, WritesMade};

use crate::status::Status;
use tta_ports::{Files, WriteError};

/// Makes the file `out` hold the bytes.
fn write_out<F: Files>(files: &mut F, out: &str, bytes: &[u8]) -> Status
    ensures { WriteEnds out.now bytes.now (F.world files.old) (F.world files.new) result }
{
    match files.write(out, bytes) {
        Ok(()) => Status::Ok,
        Err(WriteError::Failed) => Status::WriteFault,
        Err(WriteError::NoMemory) => Status::NoMemory,
    }
}

/// Makes the file `out` hold what was made; where nothing was made, no file is touched.
pub fn write_made<F: Files>(files: &mut F, out: &str, made: Result<Vec<u8>, Status>) -> Status
    ensures { WritesMade out.now (λ v. v.items) made
        (F.world files.old) (F.world files.new) result }
{
    let bytes = match made {
        Ok(bytes) => bytes,
        Err(status) => return status,
    };
    write_out(files, out, bytes.as_slice())
}
