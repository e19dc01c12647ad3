//! The command `asm`: the code of an assembly text with its data, as the image of a machine.

ghost use Rattle.tta_ops.specs.Set.{stated};
ghost use Rattle.tta_tool.specs.Asm.{Assembles};

use crate::names::WriteRequest;
use std::alloc::Global;
use tta_load::{Status, assembly_pair, image_of_whole, write_made};
use tta_ops::UnitSet;
use tta_ports::Files;

/// Reads the assembly of the second file for the machine of the first, and writes the image of its
/// code.
pub fn assemble_image<F: Files>(
    alloc: Global,
    units: &UnitSet,
    files: &mut F,
    request: &WriteRequest<'_>,
) -> Status
    ensures { Assembles (stated unit_meaning units.now)
        request.now.machine.now request.now.second.now request.now.out.now
        (F.world files.old) (F.world files.new) result }
{
    match assembly_pair(alloc, units, files, request.machine, request.second) {
        Ok(pair) => {
            let made = image_of_whole(alloc, &pair.file, &pair.whole);
            write_made(files, request.out, made)
        }
        Err(status) => status,
    }
}
