//! The command `check`: whether any run of the code of an image can fault.

ghost use Rattle.std.specs.Prelude.{◌≡◌, codes, IfOk};
ghost use Rattle.tta_ops.specs.Set.{stated};
ghost use Rattle.tta_code.specs.Legal.{IsLegalCode};
ghost use Rattle.tta_load.specs.Held.{MadeEnds};
ghost use Rattle.tta_tool.specs.Check.{IsCalledSafe, IsFound, ChecksCode};

use crate::names::CheckRequest;
use std::alloc::{AllocError, Global};
use tta_check::{Verdict, check};
use tta_load::{CodePair, Status, image_pair, put_made};
use tta_ops::UnitSet;
use tta_ports::{Files, Sink};

/// The line that is put of code that is safe.
fn safe_line(alloc: Global) -> Result<Vec<u8>, AllocError>
    ensures { IfOk result (λ v. v.items ≡ codes "safe\n") }
{
    let mut text = Vec::new(alloc);
    text.extend_from_slice(b"safe\n")?;
    Ok(text)
}

/// The line of the code of an image, where it is safe; else what was found.
fn line_of_pair(alloc: Global, pair: &CodePair) -> Result<Vec<u8>, Status>
    requires { IsLegalCode pair.now.file.machine pair.now.whole.code }
    ensures { MadeEnds (IsCalledSafe pair.now.file pair.now.whole)
        (IsFound pair.now.file pair.now.whole) (λ v. v.items) result }
{
    match check(alloc, &pair.file.machine, &pair.whole.code) {
        Ok(Verdict::Safe) => match safe_line(alloc) {
            Ok(line) => Ok(line),
            Err(_) => Err(Status::NoMemory),
        },
        Ok(Verdict::Unsafe { code, word }) => Err(Status::Unsafe { code, word }),
        Err(_) => Err(Status::NoMemory),
    }
}

/// Tells whether any run of the code of the image in the second file can fault, on the machine of
/// the first.
pub fn check_image<F: Files, S: Sink>(
    alloc: Global,
    units: &UnitSet,
    files: &mut F,
    sink: &mut S,
    request: &CheckRequest<'_>,
) -> Status
    ensures { ChecksCode (stated unit_meaning units.now)
        request.now.machine.now request.now.image.now
        (F.world files.old) (F.world files.new) (S.output sink.old) (S.output sink.new) result }
{
    match image_pair(alloc, units, files, request.machine, request.image) {
        Ok(pair) => {
            let made = line_of_pair(alloc, &pair);
            put_made(sink, made)
        }
        Err(status) => status,
    }
}
