//! Putting what a command has made.

ghost use Rattle.tta_load.specs.Ends.{PutsMade};

use crate::status::Status;
use tta_ports::{Failed, Sink};

/// Puts what was made, in one piece; where nothing was made, nothing is put.
pub fn put_made<S: Sink>(sink: &mut S, made: Result<Vec<u8>, Status>) -> Status
    ensures { PutsMade (λ v. v.items) made (S.output sink.old) (S.output sink.new) result }
{
    let text = match made {
        Ok(text) => text,
        Err(status) => return status,
    };
    match sink.put(text.as_slice()) {
        Ok(()) => Status::Ok,
        Err(Failed) => Status::WriteFault,
    }
}
