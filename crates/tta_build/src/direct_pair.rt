//! Direct pairs: programs of constants on machines that bring these constants to the output.

ghost use Rattle.std.specs.Prelude.{◌≡◌, true};
ghost use Rattle.std.specs.List.{list_all};
ghost use Rattle.tta_program.specs.Rules.{is_end};
ghost use Rattle.tta_program.specs.Direct.{only_constants};
ghost use Rattle.tta_select.specs.Select.{trigger_at};
ghost use Rattle.tta_select.specs.Direct.{out_of};
ghost use Rattle.tta_select.specs.Direct.{brings};
ghost use Rattle.tta_compiler_laws.specs.Direct.{constant_of, is_brought};
ghost use Rattle.tta_compiler_laws.specs.Direct.{is_constant_or_halt, is_direct_proc, is_direct};

use tta_arch::{Dest, Machine, Op, Source};
use tta_connect::{TargetMachine, anywhere};
use tta_moves::{ItemSource, is_joined};
use tta_program::{Proc, Program, Src, Step};

/// The trigger port of the unit that offers `out`, or one that no machine has.
fn output_of(m: &Machine) -> Dest
    ensures { result ≡ trigger_at (out_of m.now) }
{
    match anywhere(m, Op::Out) {
        Some(f) => Dest::Trigger {
            unit: f.unit,
            op: f.op,
        },
        None => Dest::Trigger { unit: 32, op: 0 },
    }
}

/// The constant that a step outputs, if it outputs one.
fn constant_of(step: &Step) -> Option<u32>
    ensures { result ≡ constant_of step.now }
{
    match step {
        Step::Put { v: Src::Word(word) } => Some(*word),
        _ => None,
    }
}

/// Whether some bus joins a word to the trigger port of the unit that offers `out`.
fn brings(on: &TargetMachine<'_>, word: u32) -> bool
    ensures { result ≡ brings on.now.machine.now word }
{
    let src = ItemSource::Port(Source::Value(word));
    is_joined(on.machine, on.net, src, output_of(on.machine), None)
}

/// Whether the constant of a step, if it outputs one, is brought to the output.
fn is_brought(on: &TargetMachine<'_>, step: &Step) -> bool
    ensures { result ≡ is_brought on.now.machine.now step.now }
{
    match constant_of(step) {
        Some(word) => brings(on, word),
        None => true,
    }
}

/// Whether the constant of each step, if it outputs one, is brought to the output.
fn are_brought(on: &TargetMachine<'_>, steps: &[Step]) -> bool
    ensures { result ≡ list_all (is_brought on.now.machine.now) steps.now }
{
    steps.iter().all(|step| is_brought(on, step))
}

/// Whether a step is one of those that a direct pair's program may have before `end`.
fn is_constant_or_halt(step: &Step) -> bool
    ensures { result ≡ is_constant_or_halt step.now }
{
    matches!(step, Step::Put { v: Src::Word(_) } | Step::Halt)
}

/// Whether a step is an `end`.
fn is_end(step: &Step) -> bool
    ensures { result ≡ is_end step.now }
{
    matches!(step, Step::End)
}

/// Whether the steps before `end` only output constants and halt.
#[tactic(auto, using(crate::proofs::Only::only_more, crate::proofs::Only::only_last, crate::proofs::Only::only_none))]
fn only_constants(steps: &[Step]) -> bool
    ensures { result ≡ only_constants steps.now }
{
    for (k, step) in steps.iter().enumerate() {
        if !is_constant_or_halt(step) {
            return is_end(step) && k + 1 == steps.len();
        }
    }
    false
}

/// Whether a procedure only outputs constants that are brought to the output, and halts.
fn is_direct_proc(on: &TargetMachine<'_>, q: &Proc) -> bool
    ensures { result ≡ is_direct_proc on.now.machine.now q.now }
{
    only_constants(q.steps.as_slice()) && are_brought(on, q.steps.as_slice())
}

/// Whether each procedure does.
fn are_direct_procs(on: &TargetMachine<'_>, procs: &[Proc]) -> bool
    ensures { result ≡ list_all (is_direct_proc on.now.machine.now) procs.now }
{
    procs.iter().all(|q| is_direct_proc(on, q))
}

/// Whether a machine and a program are a direct pair: the program is `main` alone, its steps before
/// `end` only output constants and halt, and some bus joins each constant, as an immediate, to the
/// trigger port of the unit that offers `out`. Constants to which no path comes are asked too. A
/// program without constants is direct on every machine. It takes no memory.
pub fn is_direct(on: &TargetMachine<'_>, p: &Program) -> bool
    ensures { result ≡ is_direct on.now.machine.now p.now }
{
    p.procs.len() == 1 && are_direct_procs(on, p.procs.as_slice())
}
