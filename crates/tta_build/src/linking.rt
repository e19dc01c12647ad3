//! From placed lists to code.

ghost use Rattle.std.specs.Prelude.{IfOk, IfErr};
ghost use Rattle.tta_code.specs.Legal.{IsLegalCode};
ghost use Rattle.tta_link.specs.Linked.{IsLinked};
ghost use Rattle.tta_link.specs.Blocks.{AreBlocks};
ghost use Rattle.tta_build.specs.Parts.{IsLinkCause};

use crate::error::BuildError;
use std::alloc::Global;
use tta_arch::Machine;
use tta_code::Code;
use tta_link::{LinkError, link};
use tta_moves::Placed;

/// The code of placed lists that can be linked. `CodeFull` comes exactly where they take more words
/// than the machine has addresses, with these two numbers; else only out of memory is an error.
pub fn link_placed(alloc: Global, ps: &[Placed], m: &Machine) -> Result<Code, BuildError>
    requires { AreBlocks m.now ps.now }
    ensures linked { IfOk result (λ code. IsLinked m.now code ps.now) }
    ensures legal { IfOk result (λ code. IsLegalCode m.now code) }
    ensures cause { IfErr result (λ e. IsLinkCause m.now ps.now e) }
{
    match link(alloc, ps, m) {
        Ok(code) => Ok(code),
        Err(LinkError::CodeFull { words, have }) => Err(BuildError::CodeFull { words, have }),
        Err(LinkError::NoMemory) => Err(BuildError::NoMemory),
    }
}
