//! The program of a draft, once all lines were read.

ghost use Rattle.std.specs.Prelude.{◌≡◌, None, length, IfOk, IfErr, OnOk};
ghost use Rattle.tta_tac.specs.Cycles.{IsAcyclic};
ghost use Rattle.tta_tac.specs.Draft.{draft_seen};
ghost use Rattle.tta_tac.specs.Kept.{IsKept};
ghost use Rattle.tta_tac.specs.Reported.{LeadsBack, MakesProgram, ReportsCause};

use crate::TacError;
use crate::cycles::first_recursive;
use crate::draft::Draft;
use crate::link::link_procs;
use crate::refusal::Refusal;
use std::alloc::Global;
use tta_program::{Proc, Program};

/// The program of a draft, whose procedures have all ended. `Refused` reports the first step that
/// names what there is not, then the first procedure that leads back to itself, then, with line 0,
/// that `main` is missing.
pub fn finish(alloc: Global, draft: &Draft) -> Result<Program, TacError>
    requires kept { IsKept (draft_seen draft.now) }
    requires ended { (draft_seen draft.now).begun ≡ None }
    ensures made { IfOk result (MakesProgram (draft_seen draft.now)) }
    ensures refused { IfErr result (ReportsCause (draft_seen draft.now)) }
{
    let procs = match link_procs(alloc, draft) {
        Ok(procs) => procs,
        Err(error) => return Err(error),
    };
    match check_calls(alloc, draft, procs.as_slice()) {
        Ok(()) => {}
        Err(error) => return Err(error),
    }
    let init = draft.init.to_items(alloc)?;
    match draft.names.get(b"main") {
        Some(main) => Ok(Program { procs, main, init }),
        None => Err(TacError::Refused {
            line: 0,
            code: Refusal::NoMain.code(),
        }),
    }
}

/// Refuses procedures of which one leads back to itself by calls, with the line of its `proc`.
fn check_calls(alloc: Global, draft: &Draft, procs: &[Proc]) -> Result<(), TacError>
    requires { length procs.now ≡ length draft.now.procs }
    ensures acyclic { OnOk result (IsAcyclic procs.now) }
    ensures refused { IfErr result (LeadsBack (draft_seen draft.now) procs.now) }
{
    if let Some(place) = first_recursive(alloc, procs)? {
        return Err(TacError::Refused {
            line: draft.procs.as_slice()[place].line,
            code: Refusal::Recursive.code(),
        });
    }
    Ok(())
}
