//! The printed text of a program.

ghost use Rattle.std.specs.Prelude.{◌≡◌, ◌++◌, ◌+◌, ◌<◌, ◌^◌, true, if◌then◌else◌, [], ◌∷◌, length, OnOk, IfOk};
ghost use Rattle.std.specs.List.{flat_map, list_all, AllByRecursion};
ghost use Rattle.tta_ops.specs.Set.{stated};
ghost use Rattle.tta_program.specs.Over.{is_over, StandsOver};
ghost use Rattle.tta_ifconv.specs.Tables.{AreTargets};
ghost use Rattle.tta_pretty.specs.Printed.{Words, Label, label_name, line_text, data_line, data_lines, proc_line, proc_lines, step_lines, printed};
ghost use Rattle.tta_pretty.specs.Printing.{proc_text};

use crate::steps::push_step;
use crate::words::{push_label, push_number, push_params, push_proc};
use std::alloc::{AllocError, Global};
use tta_ifconv::targets_of;
use tta_ops::UnitSet;
use tta_program::{DataLine, Proc, Program, Step};

/// Puts a label at the end, as a line, where a step has one.
fn push_label_line(out: &mut Vec<u8>, marked: bool, k: u32) -> Result<(), AllocError>
    ensures { OnOk result (out.new.items ≡ out.old.items
        ++ flat_map line_text (if marked then Label (label_name k) ∷ [] else [])) }
{
    if !marked {
        return Ok(());
    }
    push_label(out, k)?;
    out.extend_from_slice(b":\n")
}

/// Puts the lines of steps at the end, each with its label before it.
fn push_steps(
    out: &mut Vec<u8>,
    units: &UnitSet,
    main: u32,
    steps: &[Step],
    marks: &[bool],
) -> Result<(), AllocError>
    requires few { length steps.now < 2 ^ 32 }
    requires over { list_all (is_over (stated unit_meaning units.now)) steps.now ≡ true }
    requires marks { AreTargets steps.now marks.now }
    ensures { OnOk result (out.new.items ≡ out.old.items
        ++ flat_map line_text (step_lines (stated unit_meaning units.now) main steps.now 0 steps.now)) }
{
    for at in 0..steps.len() {
        push_label_line(out, marks[at], at as u32)?;
        push_step(out, units, main, &steps[at])?;
    }
    Ok(())
}

/// Puts the first line of a procedure at the end.
fn push_begin(out: &mut Vec<u8>, main: u32, k: u32, params: u32) -> Result<(), AllocError>
    ensures { OnOk result (out.new.items ≡ out.old.items
        ++ line_text (Words (proc_line main k params))) }
{
    out.extend_from_slice(b"proc ")?;
    push_proc(out, main, k)?;
    push_params(out, params)?;
    out.extend_from_slice(b"\n")?;
    Ok(())
}

/// Puts a word of data at the end, as a line.
fn push_datum(out: &mut Vec<u8>, d: DataLine) -> Result<(), AllocError>
    ensures { OnOk result (out.new.items ≡ out.old.items ++ line_text (Words (data_line d))) }
{
    out.extend_from_slice(b"data ")?;
    push_number(out, d.address)?;
    out.extend_from_slice(b" ")?;
    push_number(out, d.value)?;
    out.extend_from_slice(b"\n")
}

/// Puts the data of a program at the end.
fn push_data(out: &mut Vec<u8>, init: &[DataLine]) -> Result<(), AllocError>
    ensures { OnOk result (out.new.items ≡ out.old.items
        ++ flat_map line_text (data_lines init.now)) }
{
    for d in init {
        push_datum(out, *d)?;
    }
    Ok(())
}

/// Puts a procedure at the end.
fn push_one(
    alloc: Global,
    out: &mut Vec<u8>,
    units: &UnitSet,
    main: u32,
    k: u32,
    q: &Proc,
) -> Result<(), AllocError>
    requires few { length q.now.steps < 2 ^ 32 }
    requires over { list_all (is_over (stated unit_meaning units.now)) q.now.steps ≡ true }
    ensures { OnOk result (out.new.items ≡ out.old.items
        ++ proc_text (stated unit_meaning units.now) main k q.now) }
{
    let steps = q.steps.as_slice();
    let marks = targets_of(alloc, steps)?;
    push_begin(out, main, k, q.params)?;
    push_steps(out, units, main, steps, &marks)?;
    Ok(())
}

/// Puts procedures at the end.
fn push_procs(
    alloc: Global,
    out: &mut Vec<u8>,
    units: &UnitSet,
    main: u32,
    procs: &[Proc],
) -> Result<(), AllocError>
    requires few { length procs.now < 2 ^ 32 }
    requires short { AllByRecursion (λ q. length q.steps < 2 ^ 32) procs.now }
    requires over { list_all (λ q. list_all (is_over (stated unit_meaning units.now)) q.steps)
        procs.now ≡ true }
    ensures { OnOk result (out.new.items ≡ out.old.items
        ++ flat_map line_text (proc_lines (stated unit_meaning units.now) main 0 procs.now)) }
{
    for k in 0..procs.len() {
        push_one(alloc, out, units, main, k as u32, &procs[k])?;
    }
    Ok(())
}

/// The printed text of a program: its data, and then its procedures in order, a statement on each
/// line. Variables, labels and procedures are called by their numbers. An `Err` is out of memory.
#[tactic(auto, unfolding(crate::specs::Printed::printed))]
pub fn print_program(alloc: Global, p: &Program, units: &UnitSet) -> Result<Vec<u8>, AllocError>
    requires { StandsOver (stated unit_meaning units.now) p.now }
    ensures { IfOk result (λ v. v.items ≡ printed (stated unit_meaning units.now) p.now) }
{
    let mut text = Vec::new(alloc);
    push_data(&mut text, p.init.as_slice())?;
    push_procs(alloc, &mut text, units, p.main, p.procs.as_slice())?;
    Ok(text)
}
