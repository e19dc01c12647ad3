//! Labels and steps of a procedure that has begun. They are read into the procedure while it is moved
//! out of the draft.

ghost use Rattle.std.specs.Prelude.{◌≡◌, ◌≤◌, ◌+◌, None};
ghost use Rattle.std.specs.Prelude.{OnOk};
ghost use Rattle.tta_parse.specs.Taken.{Takes};
ghost use Rattle.tta_ops.specs.Set.{stated};
ghost use Rattle.tta_tac.specs.Draft.{draft_seen, proc_seen};
ghost use Rattle.tta_tac.specs.DraftRules.{IsBegun};
ghost use Rattle.tta_tac.specs.FirstPass.{take_label, take_step};
ghost use Rattle.tta_tac.specs.FirstPass.{labelled, stepped, close_if};
ghost use Rattle.tta_tac.specs.Seen.{form_seen};

use crate::declarations::declare_names;
use crate::draft::{Draft, DraftProc};
use crate::forms::Form;
use crate::operations::check_op;
use crate::refusal::{LineError, Refusal};
use crate::steps::{has_many_args, is_end, step_of};
use std::alloc::{AllocError, Global};
use tta_ops::UnitSet;

/// A text has at most this many lines that declare something or are a step.
pub const MOST_LINES: u32 = 65_536;

/// A procedure has at most this many variables, with its parameters.
const MOST_VARS: usize = 4096;

impl<'t> Draft<'t> {
    /// Declares a label of a begun procedure that was moved out of the draft. It is refused as
    /// `Twice` where the procedure has it already, and as `TooMany` where 65,536 lines were read.
    pub fn take_label(
        &mut self,
        alloc: Global,
        mut proc: DraftProc<'t>,
        name: &'t [u8],
    ) -> Result<(), LineError>
        requires { IsBegun self.old.lines (proc_seen proc) }
        ensures { Takes (draft_seen self.new) result
            (take_label (draft_seen self.old) (proc_seen proc.entry) name.now) }
    {
        self.add_label(alloc, &mut proc, name)?;
        self.put_back(proc);
        Ok(())
    }

    /// The label of a line in a procedure that was moved out of the draft.
    #[tactic(auto, using(crate::proofs::Seen::steps_seen_length))]
    fn add_label(
        &self,
        alloc: Global,
        proc: &mut DraftProc<'t>,
        name: &'t [u8],
    ) -> Result<(), LineError>
        requires { IsBegun self.now.lines (proc_seen proc.old) }
        ensures says { Takes (labelled (draft_seen self.now) (proc_seen proc.new)) result
            (take_label (draft_seen self.now) (proc_seen proc.old) name.now) }
        ensures room { OnOk result (self.now.lines + 1 ≤ 65536) }
    {
        if proc.labels.get(name).is_some() {
            return Err(LineError::Refused(Refusal::Twice));
        }
        if self.lines >= MOST_LINES {
            return Err(LineError::Refused(Refusal::TooMany));
        }
        let step = proc.steps.len() as u32;
        proc.labels.add(alloc, name, step)?;
        Ok(())
    }

    /// Takes a step of a begun procedure that was moved out of the draft. It is refused as
    /// `UnknownOp` or `Arity` by its operation, and as `TooMany` where it has more than eight
    /// arguments, brings the procedure's 4,097th variable, or 65,536 lines were read.
    pub fn take_step(
        &mut self,
        alloc: Global,
        units: &UnitSet,
        mut proc: DraftProc<'t>,
        line: u32,
        form: &Form<'_, 't>,
    ) -> Result<(), LineError>
        requires moved { self.old.begun ≡ None }
        requires begun { IsBegun self.old.lines (proc_seen proc) }
        ensures { Takes (draft_seen self.new) result (take_step (stated unit_meaning units.now)
            (draft_seen self.old) (proc_seen proc.entry) line (form_seen form.now)) }
    {
        self.add_step(alloc, units, &mut proc, line, form)?;
        self.put_stepped(proc, is_end(form))?;
        Ok(())
    }

    /// Puts a procedure into the draft after a step, by which it may have ended.
    #[tactic(auto, using(crate::proofs::Seen::procs_seen_append))]
    fn put_stepped(&mut self, proc: DraftProc<'t>, ends: bool) -> Result<(), AllocError>
        requires lines { self.old.lines ≤ 65535 }
        requires moved { self.old.begun ≡ None }
        ensures { let next = record (draft_seen self.old) { lines = self.old.lines + 1 } in
            OnOk result (draft_seen self.new ≡ close_if ends next (proc_seen proc.entry)) }
    {
        if ends {
            self.lines += 1;
            self.procs.push(proc)?;
        } else {
            self.put_back(proc);
        }
        Ok(())
    }

    /// The step of a line at the end of a procedure that was moved out of the draft.
    #[tactic(auto, using(crate::proofs::Seen::steps_seen_append))]
    fn add_step(
        &self,
        alloc: Global,
        units: &UnitSet,
        proc: &mut DraftProc<'t>,
        line: u32,
        form: &Form<'_, 't>,
    ) -> Result<(), LineError>
        requires { IsBegun self.now.lines (proc_seen proc.old) }
        ensures says { let next = stepped (draft_seen self.now) (form_seen form.now) in
            Takes (next (proc_seen proc.new)) result (take_step (stated unit_meaning units.now)
            (draft_seen self.now) (proc_seen proc.old) line (form_seen form.now)) }
        ensures room { OnOk result (self.now.lines + 1 ≤ 65536) }
    {
        check_op(units, form)?;
        if self.lines >= MOST_LINES || has_many_args(form) {
            return Err(LineError::Refused(Refusal::TooMany));
        }
        declare_names(alloc, &mut proc.vars, form)?;
        if proc.vars.len() > MOST_VARS {
            return Err(LineError::Refused(Refusal::TooMany));
        }
        let Some(step) = step_of(alloc, units, &proc.vars, form)? else {
            return Err(LineError::Refused(Refusal::Syntax));
        };
        proc.steps.push(step)?;
        proc.lines.push(line)?;
        Ok(())
    }
}
