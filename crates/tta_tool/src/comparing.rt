//! A program and its code are run without an input, and the runs are compared.

ghost use Rattle.std.specs.Prelude.{◌≡◌, ℕ, ◌<◌, ◌≤◌, ◌^◌, true, false, length, IfOk};
ghost use Rattle.tta_ops.specs.Set.{stated};
ghost use Rattle.tta_report.specs.Lines.{lines_text};
ghost use Rattle.tta_program.specs.Program.{step_count};
ghost use Rattle.tta_program.specs.Sequential as sequential;
ghost use Rattle.tta_code.specs.Cycle as cycles;
ghost use Rattle.tta_code.specs.Legal.{IsLegalCode};
ghost use Rattle.tta_build.specs.Statement.{IsBuilt};
ghost use Rattle.tta_load.specs.Ends.{PutEnds};
ghost use Rattle.tta_tool.specs.Sample.{zeros, summary, HasRun, HasCycled, StandAlike};
ghost use Rattle.tta_tool.specs.Sample.{CompareEnds};

use crate::program_run::{ProgramRun, load_program};
use std::alloc::{AllocError, Global};
use tta_code::Whole;
use tta_code_run::{CodeRun, load_code};
use tta_load::{Status, data_words};
use tta_machine::Machine;
use tta_ops::UnitSet;
use tta_ports::{Failed, Sink};
use tta_report::{Line, put_lines};
use tta_run::{Kept, keep_run};
use tta_sim::Sim;
use tta_tac::Program;
use tta_tacrun::Seq;

/// A program, and the code that it is compiled to for a machine.
#[derive(Clone, Copy)]
pub struct Compiled<'a> {
    pub machine: &'a Machine,
    pub program: &'a Program,
    pub whole: &'a Whole,
}

/// How many steps a program has.
fn count_steps(program: &Program) -> u64
    ensures { result ≡ step_count program.now }
{
    let mut count = 0u64;
    'procs: for proc in program.procs.as_slice() {
        count += proc.steps.len() as u64;
    }
    count
}

/// The words of a data space of this size, each 0.
fn zeros(alloc: Global, space: u32) -> Result<Vec<u32>, AllocError>
    ensures zeros { IfOk result (λ v. v.items ≡ zeros space) }
    ensures size { IfOk result (λ v. length v.items ≡ space) }
{
    let words = vec![in alloc; 0; space as usize]?;
    Ok(words)
}

/// The run of a program, with the words that it output.
#[derive(Drop)]
struct KeptProgram {
    seq: Seq,
    kept: Kept,
}

/// Runs a program from data words of 0, with its data laid over them, for at most so many steps.
fn run_program(
    alloc: Global,
    units: &UnitSet,
    program: &Program,
    space: u32,
    bound: u64,
) -> Result<KeptProgram, AllocError>
    requires { bound < 2 ^ 48 }
    ensures { let U = stated unit_meaning units.now in
        IfOk result (λ r.
        HasRun U program.now space bound r.seq r.kept.output.items r.kept.waits) }
{
    let memory = zeros(alloc, space)?;
    let seq = load_program(alloc, program, memory)?;
    let mut ran = ProgramRun { program, seq };
    let kept = keep_run(alloc, &mut ran, units, bound)?;
    Ok(KeptProgram { seq: ran.seq, kept })
}

/// The run of code, with the words that it output.
#[derive(Drop)]
struct KeptCode {
    sim: Sim,
    kept: Kept,
}

/// Runs code from data words of 0, with its data laid over them, for at most so many cycles.
fn run_code(
    alloc: Global,
    units: &UnitSet,
    machine: &Machine,
    whole: &Whole,
    bound: u64,
) -> Result<KeptCode, AllocError>
    requires bound { bound < 2 ^ 48 }
    requires legal { IsLegalCode machine.now whole.now.code }
    ensures { let U = stated unit_meaning units.now in
        IfOk result (λ r.
        HasCycled U machine.now whole.now bound r.sim r.kept.output.items r.kept.waits) }
{
    let memory = zeros(alloc, data_words(machine))?;
    let sim = load_code(alloc, machine, whole, memory)?;
    let code = &whole.code;
    let mut ran = CodeRun { machine, code, sim };
    let kept = keep_run(alloc, &mut ran, units, bound)?;
    Ok(KeptCode { sim: ran.sim, kept })
}

/// Whether both runs output the same and left the same data words.
fn are_equal(program: &KeptProgram, code: &KeptCode) -> bool
    ensures { program.now.kept.output.items ≡ code.now.kept.output.items
        → program.now.seq.memory ≡ code.now.sim.memory → result ≡ true }
{
    program.kept.output == code.kept.output && program.seq.memory() == code.sim.memory()
}

/// How many instructions code has, which the machine can carry out.
fn count_words(machine: &Machine, whole: &Whole) -> u64
    requires legal { IsLegalCode machine.now whole.now.code }
    ensures count { result ≡ length whole.now.code.words }
    ensures few { result ≤ 65536 }
{
    // So that the rules of machines are known here, which bound the addresses.
    machine.rules();
    whole.code.words.len() as u64
}

/// Puts the summary of a program and its code that have halted.
fn put_summary<S: Sink>(
    sink: &mut S,
    program: &Program,
    whole: &Whole,
    ran: &KeptProgram,
    cycled: &KeptCode,
) -> Status
    ensures { (s : sequential.State) (t : cycles.State)
        → StandAlike ran.now.seq cycled.now.sim ran.now.kept.output.items
        cycled.now.kept.output.items s t
        → PutEnds (lines_text (summary program.now whole.now s t))
        (S.output sink.old) (S.output sink.new) result }
{
    let lines = [
        Line::Lines(count_steps(program)),
        Line::Words(whole.code.words.len() as u64),
        Line::Steps(ran.seq.steps()),
        Line::Cycles(cycled.sim.cycles()),
        Line::Outputs(ran.kept.output.len() as u64),
        Line::Equal(are_equal(ran, cycled)),
    ];
    match put_lines(sink, &lines) {
        Ok(()) => Status::Ok,
        Err(Failed) => Status::WriteFault,
    }
}

/// Runs the code of a program that has halted, compares the runs and puts the summary.
fn compare_code<S: Sink>(
    alloc: Global,
    units: &UnitSet,
    sink: &mut S,
    compiled: &Compiled<'_>,
    ran: &KeptProgram,
) -> Status
    requires legal { IsLegalCode compiled.now.machine.now compiled.now.whole.now.code }
    requires few { ran.now.seq.steps < 2 ^ 24 }
    ensures { let U = stated unit_meaning units.now in
        let machine = compiled.now.machine.now in
        let program = compiled.now.program.now in
        let whole = compiled.now.whole.now in
        (bound : ℕ) → IsBuilt U machine program whole
        → HasRun U program machine.data_words bound ran.now.seq ran.now.kept.output.items false
        → ran.now.seq.outcome ≡ sequential.Halted
        → CompareEnds U machine program whole bound
        (S.output sink.old) (S.output sink.new) result }
{
    let bound = count_words(compiled.machine, compiled.whole) * (ran.seq.steps() + 1);
    match run_code(alloc, units, compiled.machine, compiled.whole, bound) {
        Ok(cycled) => put_summary(sink, compiled.program, compiled.whole, ran, &cycled),
        Err(_) => Status::NoMemory,
    }
}

/// Runs a program for at most so many steps, and where it halts its code, compares them and puts the
/// summary.
pub fn compare<S: Sink>(
    alloc: Global,
    units: &UnitSet,
    sink: &mut S,
    compiled: &Compiled<'_>,
    bound: u64,
) -> Status
    requires bound { bound < 2 ^ 24 }
    requires built { IsBuilt (stated unit_meaning units.now)
        compiled.now.machine.now compiled.now.program.now compiled.now.whole.now }
    ensures { let U = stated unit_meaning units.now in
        CompareEnds U
        compiled.now.machine.now compiled.now.program.now compiled.now.whole.now bound
        (S.output sink.old) (S.output sink.new) result }
{
    let space = data_words(compiled.machine);
    match run_program(alloc, units, compiled.program, space, bound) {
        Ok(ran) => {
            if ran.kept.waits {
                Status::Waiting
            } else if ran.seq.halted() {
                compare_code(alloc, units, sink, compiled, &ran)
            } else {
                Status::Running
            }
        }
        Err(_) => Status::NoMemory,
    }
}
