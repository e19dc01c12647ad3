//! The second pass: labels and callees get their numbers, once all lines were read.

ghost use Rattle.std.specs.Prelude.{◌≡◌, [], length};
ghost use Rattle.std.specs.List.{AllByRecursion};
ghost use Rattle.tta_parse.specs.Names.{named_in};
ghost use Rattle.tta_parse.specs.Steps.{or_refuse};
ghost use Rattle.tta_tac.specs.Draft.{CallTo, draft_seen, proc_seen, procs_seen, step_seen};
ghost use Rattle.tta_tac.specs.Draft.{steps_seen};
ghost use Rattle.tta_tac.specs.Kept.{IsEnded};
ghost use Rattle.tta_tac.specs.SecondPass as spec;
ghost use Rattle.tta_tac.specs.Reported.{Links, Reports};

use crate::TacError;
use crate::draft::{Draft, DraftProc, NamedStep};
use crate::refusal::{LineError, Refusal};
use std::alloc::Global;
use tta_list::Items;
use tta_parse::Names;
use tta_program::{Args, Proc, Step};

/// The procedures of a draft in the order of the text. `Refused` reports the first step that names
/// what there is not, or calls a procedure with another number of arguments than it has parameters.
pub fn link_procs(alloc: Global, draft: &Draft) -> Result<Items<Proc>, TacError>
    requires { AllByRecursion IsEnded (procs_seen draft.now.procs) }
    ensures { Reports result (spec.link_procs (draft_seen draft.now) (procs_seen draft.now.procs)) }
{
    let mut linked = Items::new(alloc);
    for proc in draft.procs.as_slice() {
        match link_proc(alloc, draft, proc) {
            Ok(proc) => linked.push(proc)?,
            Err(error) => return Err(error),
        }
    }
    Ok(linked)
}

/// A procedure with its steps.
fn link_proc(alloc: Global, draft: &Draft, proc: &DraftProc) -> Result<Proc, TacError>
    requires { IsEnded (proc_seen proc.now) }
    ensures { Reports result (spec.link_proc (draft_seen draft.now) (proc_seen proc.now)) }
{
    let lines = proc.lines.as_slice();
    let steps = match link_steps(alloc, draft, &proc.labels, proc.steps.as_slice(), lines) {
        Ok(steps) => steps,
        Err(error) => return Err(error),
    };
    Ok(Proc {
        params: proc.params,
        vars: proc.vars.len() as u32,
        steps,
        lines: Items::of(Vec::from_slice(alloc, lines)?),
    })
}

/// The steps of a procedure, each with its line.
fn link_steps(
    alloc: Global,
    draft: &Draft,
    labels: &Names<u32>,
    steps: &[NamedStep],
    lines: &[u32],
) -> Result<Items<Step>, TacError>
    requires { length lines.now ≡ length steps.now }
    ensures { Reports result
        (spec.link_steps (draft_seen draft.now) labels.now (steps_seen steps.now) lines.now) }
{
    let mut linked = Items::new(alloc);
    for (place, step) in steps.iter().enumerate() {
        match link_step(alloc, draft, labels, step) {
            Ok(step) => linked.push(step)?,
            Err(LineError::Refused(refusal)) => {
                return Err(TacError::Refused {
                    line: lines[place],
                    code: refusal.code(),
                });
            }
            Err(LineError::NoMemory) => return Err(TacError::NoMemory),
        }
    }
    Ok(linked)
}

/// A step with its label or callee as a number.
fn link_step(
    alloc: Global,
    draft: &Draft,
    labels: &Names<u32>,
    step: &NamedStep,
) -> Result<Step, LineError>
    ensures { Links result (spec.link_step (draft_seen draft.now) labels.now (step_seen step.now)) }
{
    match step {
        NamedStep::Plain(step) => Ok(step.copy(alloc)?),
        NamedStep::If { rel, a, b, label } => Ok(Step::If {
            rel: *rel,
            a: *a,
            b: *b,
            to: label_named(labels, label)?,
        }),
        NamedStep::Goto { label } => Ok(Step::Goto {
            to: label_named(labels, label)?,
        }),
        NamedStep::Call { d, callee, args } => link_call(alloc, draft, *d, callee, args),
    }
}

/// A call with its procedure as a number.
fn link_call(
    alloc: Global,
    draft: &Draft,
    d: Option<u32>,
    callee: &[u8],
    args: &Args,
) -> Result<Step, LineError>
    ensures { let call = CallTo d callee.now args.now in
        Links result (spec.link_step (draft_seen draft.now) [] call) }
{
    let callee = callee_named(&draft.names, callee)?;
    if params_of(draft.procs.as_slice(), callee) as usize != args.as_slice().len() {
        return Err(LineError::Refused(Refusal::Arity));
    }
    Ok(Step::Invoke {
        d,
        callee,
        args: args.copy(alloc)?,
    })
}

/// The step that a label names.
fn label_named(labels: &Names<u32>, label: &[u8]) -> Result<u32, Refusal>
    ensures { result ≡ or_refuse Refusal.UnknownLabel (named_in labels.now label.now) }
{
    match labels.get(label) {
        Some(step) => Ok(step),
        None => Err(Refusal::UnknownLabel),
    }
}

/// The procedure that a call names: one that there is, and not `main`.
fn callee_named(names: &Names<u32>, name: &[u8]) -> Result<u32, Refusal>
    ensures { result ≡ spec.callee_named names.now name.now }
{
    if name == b"main".as_slice() {
        return Err(Refusal::UnknownProc);
    }
    match names.get(name) {
        Some(place) => Ok(place),
        None => Err(Refusal::UnknownProc),
    }
}

/// How many parameters a procedure has, and 0 where there is none of this number.
fn params_of(procs: &[DraftProc], place: u32) -> u32
    ensures { result ≡ spec.params_of (procs_seen procs.now) place }
{
    match procs.get(place as usize) {
        Some(proc) => proc.params,
        None => 0,
    }
}
