//! The command `dis`: the code of an image with its data, as its canonical assembly.

ghost use Rattle.std.specs.Prelude.{◌≡◌};
ghost use Rattle.tta_ops.specs.Set.{stated};
ghost use Rattle.tta_disasm.specs.Canonical.{canonical};
ghost use Rattle.tta_load.specs.Held.{MadeEnds, no_memory};
ghost use Rattle.tta_tool.specs.Dis.{Shows};

use crate::names::WriteRequest;
use std::alloc::Global;
use tta_disasm::disassemble;
use tta_load::{CodePair, Status, image_pair, write_made};
use tta_ops::UnitSet;
use tta_ports::Files;

/// The canonical text of code with data for a machine.
fn text_of_pair(alloc: Global, units: &UnitSet, pair: &CodePair) -> Result<Vec<u8>, Status>
    ensures { let U = stated unit_meaning units.now in
        MadeEnds (λ text. text ≡ canonical U pair.now.file.machine pair.now.whole) no_memory
        (λ v. v.items) result }
{
    match disassemble(alloc, &pair.whole, &pair.file.machine, units) {
        Ok(text) => Ok(text),
        Err(_) => Err(Status::NoMemory),
    }
}

/// Shows the code of the image in the second file for the machine of the first: writes its canonical
/// assembly.
pub fn show_image<F: Files>(
    alloc: Global,
    units: &UnitSet,
    files: &mut F,
    request: &WriteRequest<'_>,
) -> Status
    ensures { Shows (stated unit_meaning units.now)
        request.now.machine.now request.now.second.now request.now.out.now
        (F.world files.old) (F.world files.new) result }
{
    match image_pair(alloc, units, files, request.machine, request.second) {
        Ok(pair) => {
            let made = text_of_pair(alloc, units, &pair);
            write_made(files, request.out, made)
        }
        Err(status) => status,
    }
}
