//! The steps of a program, over cells.

ghost use Rattle.std.specs.Prelude.{◌≡◌, IfOk, option_copied, slice_get};
ghost use Rattle.tta_tacrun.specs.Code.{code_said};
ghost use Rattle.tta_tacrun.specs.Run.{code_of};

use crate::flat::flat_steps;
use crate::flat_proc::FlatProc;
use std::alloc::{AllocError, Global};
use tta_program::Program;

/// The steps of each procedure of a program. An `Err` is out of memory.
pub fn flat_code(alloc: Global, p: &Program) -> Result<Vec<FlatProc>, AllocError>
    ensures { IfOk result (λ v. code_said v.items ≡ code_of p.now) }
{
    let procs = p.procs.as_slice();
    let mut code = Vec::with_capacity(alloc, procs.len())?;
    for q in procs {
        let size = q.vars;
        let steps = flat_steps(alloc, size, q.steps.as_slice())?;
        code.push(FlatProc { size, steps })?;
    }
    Ok(code)
}

/// The steps of a procedure, if there is one.
pub fn proc_in(code: &[FlatProc], proc: usize) -> Option<&FlatProc>
    ensures { option_copied result ≡ slice_get code.now proc }
{
    code.get(proc)
}
