//! The program by its basic blocks.

ghost use Rattle.std.specs.Prelude.{◌≡◌, ◌++◌, ◌+◌, ◌-◌, true, slice_index, OnOk};
ghost use Rattle.std.specs.List.{flat_map, list_all};
ghost use Rattle.tta_ops.specs.Set.{stated};
ghost use Rattle.tta_arch.specs.Fields.{numbers};
ghost use Rattle.tta_program.specs.Over.{is_over, StandsOver};
ghost use Rattle.tta_flow.specs.Live.{live_before, live_after};
ghost use Rattle.tta_stages.specs.Words.{var_if};
ghost use Rattle.tta_stages.specs.ProgramText.{line_at, vars_at, before_text, after_text};
ghost use Rattle.tta_stages.specs.ProgramText.{numbered_text, step_at_text, steps_in_text};
ghost use Rattle.tta_stages.specs.ProgramText.{block_steps_text, extent_text, block_heading};
ghost use Rattle.tta_stages.specs.ProgramText.{block_text, program_text};

use crate::text::words::{push_count, push_proc, push_var_if};
use std::alloc::AllocError;
use tta_flow::{Block, Live};
use tta_ops::UnitSet;
use tta_pretty::push_step;
use tta_program::{Proc, Program, Step};

/// The line at a place of a list, 0 past the last.
fn line_in(lines: &[u32], at: usize) -> u32
    ensures { result ≡ slice_index lines.now at }
{
    match lines.get(at) {
        Some(line) => *line,
        None => 0,
    }
}

/// The line in which a step of a procedure stands, 0 where there is no such step.
pub fn line_at(p: &Program, owner: u32, at: u32) -> u32
    ensures { result ≡ line_at p.now owner at }
{
    match p.procs.as_slice().get(owner as usize) {
        Some(q) => line_in(q.lines.as_slice(), at as usize),
        None => 0,
    }
}

/// How many variables a procedure has, 0 where there is none.
fn vars_at(p: &Program, owner: u32) -> u32
    ensures { result ≡ vars_at p.now owner }
{
    match p.procs.as_slice().get(owner as usize) {
        Some(q) => q.vars,
        None => 0,
    }
}

/// Puts those of so many variables that are live before a step.
fn push_all_before(
    out: &mut Vec<u8>,
    live: &Live,
    owner: u32,
    step: u32,
    vars: u32,
) -> Result<(), AllocError>
    ensures { OnOk result (out.new.items ≡ out.old.items
        ++ flat_map (λ x. var_if (live_before live.now owner step x) x) (numbers vars)) }
{
    for x in 0..vars {
        push_var_if(out, live.before(owner, step, x), x)?;
    }
    Ok(())
}

/// Puts the variables that are live before a step, as a line.
#[tactic(auto, unfolding(crate::specs::ProgramText::before_text))]
fn push_before(
    out: &mut Vec<u8>,
    live: &Live,
    owner: u32,
    step: u32,
    vars: u32,
) -> Result<(), AllocError>
    ensures { OnOk result (out.new.items ≡ out.old.items
        ++ before_text live.now owner step vars) }
{
    out.extend_from_slice(b" live before :")?;
    push_all_before(out, live, owner, step, vars)?;
    out.extend_from_slice(b"\n")
}

/// Puts those of so many variables that are live after a step.
fn push_all_after(
    out: &mut Vec<u8>,
    live: &Live,
    owner: u32,
    step: u32,
    vars: u32,
) -> Result<(), AllocError>
    ensures { OnOk result (out.new.items ≡ out.old.items
        ++ flat_map (λ x. var_if (live_after live.now owner step x) x) (numbers vars)) }
{
    for x in 0..vars {
        push_var_if(out, live.after(owner, step, x), x)?;
    }
    Ok(())
}

/// Puts the variables that are live after a step, as a line.
#[tactic(auto, unfolding(crate::specs::ProgramText::after_text))]
fn push_after(
    out: &mut Vec<u8>,
    live: &Live,
    owner: u32,
    step: u32,
    vars: u32,
) -> Result<(), AllocError>
    ensures { OnOk result (out.new.items ≡ out.old.items
        ++ after_text live.now owner step vars) }
{
    out.extend_from_slice(b" live after :")?;
    push_all_after(out, live, owner, step, vars)?;
    out.extend_from_slice(b"\n")
}

/// Puts a step, after its line.
#[tactic(auto, unfolding(crate::specs::ProgramText::numbered_text))]
fn push_numbered(
    out: &mut Vec<u8>,
    units: &UnitSet,
    main: u32,
    step: &Step,
    line: u32,
) -> Result<(), AllocError>
    requires { is_over (stated unit_meaning units.now) step.now ≡ true }
    ensures { OnOk result (out.new.items ≡ out.old.items
        ++ numbered_text (stated unit_meaning units.now) main step.now line) }
{
    push_count(out, b" line ", u128::from(line))?;
    out.extend_from_slice(b" : ")?;
    push_step(out, units, main, step)
}

/// Puts a step of a procedure, by its number.
fn push_step_at(
    out: &mut Vec<u8>,
    units: &UnitSet,
    main: u32,
    q: &Proc,
    at: usize,
) -> Result<(), AllocError>
    requires { list_all (is_over (stated unit_meaning units.now)) q.now.steps ≡ true }
    ensures { OnOk result (out.new.items ≡ out.old.items
        ++ step_at_text (stated unit_meaning units.now) main q.now at) }
{
    match q.steps.as_slice().get(at) {
        Some(step) => push_numbered(out, units, main, step, line_in(q.lines.as_slice(), at)),
        None => Ok(()),
    }
}

/// Puts the steps of a block of a procedure.
fn push_steps_in(
    out: &mut Vec<u8>,
    units: &UnitSet,
    main: u32,
    b: Block,
    q: &Proc,
) -> Result<(), AllocError>
    requires { list_all (is_over (stated unit_meaning units.now)) q.now.steps ≡ true }
    ensures { OnOk result (out.new.items ≡ out.old.items
        ++ steps_in_text (stated unit_meaning units.now) main b q.now) }
{
    let count = (b.last as usize + 1).saturating_sub(b.first as usize);
    for i in 0..count {
        push_step_at(out, units, main, q, b.first as usize + i)?;
    }
    Ok(())
}

/// Puts the steps of a block.
fn push_block_steps(
    out: &mut Vec<u8>,
    units: &UnitSet,
    p: &Program,
    b: Block,
) -> Result<(), AllocError>
    requires { StandsOver (stated unit_meaning units.now) p.now }
    ensures { OnOk result (out.new.items ≡ out.old.items
        ++ block_steps_text (stated unit_meaning units.now) p.now b) }
{
    match p.procs.as_slice().get(b.owner as usize) {
        Some(q) => push_steps_in(out, units, p.main, b, q),
        None => Ok(()),
    }
}

/// Puts the steps of a block and their lines, the first and the last.
#[tactic(auto, unfolding(crate::specs::ProgramText::extent_text))]
fn push_extent(out: &mut Vec<u8>, p: &Program, b: Block) -> Result<(), AllocError>
    ensures { OnOk result (out.new.items ≡ out.old.items ++ extent_text p.now b) }
{
    push_count(out, b" steps ", u128::from(b.first))?;
    push_count(out, b" ", u128::from(b.last))?;
    push_count(out, b" lines ", u128::from(line_at(p, b.owner, b.first)))?;
    push_count(out, b" ", u128::from(line_at(p, b.owner, b.last)))
}

/// Puts the heading of a block: its number, its procedure, and its steps and lines.
#[tactic(auto, unfolding(crate::specs::ProgramText::block_heading))]
fn push_heading(out: &mut Vec<u8>, p: &Program, k: usize, b: Block) -> Result<(), AllocError>
    ensures { OnOk result (out.new.items ≡ out.old.items ++ block_heading p.now k b) }
{
    push_count(out, b"block ", k as u128)?;
    out.extend_from_slice(b" proc ")?;
    push_proc(out, p.main, b.owner)?;
    push_extent(out, p, b)?;
    out.extend_from_slice(b"\n")
}

/// Puts a block: its heading, and its steps between what is live before and after them.
#[tactic(auto, unfolding(crate::specs::ProgramText::block_text))]
fn push_block(
    out: &mut Vec<u8>,
    units: &UnitSet,
    p: &Program,
    live: &Live,
    k: usize,
    b: &Block,
) -> Result<(), AllocError>
    requires { StandsOver (stated unit_meaning units.now) p.now }
    ensures { OnOk result (out.new.items ≡ out.old.items
        ++ block_text (stated unit_meaning units.now) p.now live.now k b.now) }
{
    let vars = vars_at(p, b.owner);
    push_heading(out, p, k, *b)?;
    push_before(out, live, b.owner, b.first, vars)?;
    push_block_steps(out, units, p, *b)?;
    push_after(out, live, b.owner, b.last, vars)
}

/// Puts the blocks of a program.
pub fn push_program(
    out: &mut Vec<u8>,
    units: &UnitSet,
    p: &Program,
    live: &Live,
    blocks: &[Block],
) -> Result<(), AllocError>
    requires { StandsOver (stated unit_meaning units.now) p.now }
    ensures { OnOk result (out.new.items ≡ out.old.items
        ++ program_text (stated unit_meaning units.now) p.now live.now blocks.now) }
{
    for (k, b) in blocks.iter().enumerate() {
        push_block(out, units, p, live, k, b)?;
    }
    Ok(())
}
