//! The register code, block by block.

ghost use Rattle.std.specs.Prelude.{◌≡◌, ◌++◌, codes, OnOk};
ghost use Rattle.tta_ops.specs.Set.{stated};
ghost use Rattle.tta_stages.specs.Words.{home_text};
ghost use Rattle.tta_stages.specs.RegisterText.{lines_text, return_text, part_text, part_at, range_text};
ghost use Rattle.tta_stages.specs.RegisterText.{range_at, code_heading, homes_text, rblock_text};
ghost use Rattle.tta_stages.specs.RegisterText.{rblock_at, code_text, register_text};

use crate::text::program::line_at;
use crate::text::steps::{On, push_exit, push_rsteps};
use crate::text::words::{push_block, push_count, push_home, push_proc};
use std::alloc::AllocError;
use tta_flow::Block;
use tta_lir::RBlock;
use tta_lower::Part;
use tta_moves::Placed;
use tta_ops::UnitSet;
use tta_program::Program;

/// What the headings of blocks are told of: a program, where the code of each block begins, and its
/// placement.
#[derive(Drop)]
pub struct Ranges<'a> {
    pub p: &'a Program,
    pub starts: &'a [u32],
    pub placed: &'a [Placed],
}

/// Puts the procedure of some steps, and their lines, the first and the last.
#[tactic(auto, unfolding(crate::specs::RegisterText::lines_text))]
fn push_lines(out: &mut Vec<u8>, p: &Program, b: Block) -> Result<(), AllocError>
    ensures { OnOk result (out.new.items ≡ out.old.items ++ lines_text p.now b) }
{
    push_proc(out, p.main, b.owner)?;
    push_count(out, b" lines ", u128::from(line_at(p, b.owner, b.first)))?;
    push_count(out, b" ", u128::from(line_at(p, b.owner, b.last)))
}

/// Puts the procedure of the step to which a call returns, and its line.
#[tactic(auto, unfolding(crate::specs::RegisterText::return_text))]
fn push_return(out: &mut Vec<u8>, p: &Program, b: Block) -> Result<(), AllocError>
    ensures { OnOk result (out.new.items ≡ out.old.items ++ return_text p.now b) }
{
    push_proc(out, p.main, b.owner)?;
    push_count(out, b" line ", u128::from(line_at(p, b.owner, b.last)))
}

/// Puts the entry of a procedure.
fn push_entry(out: &mut Vec<u8>, p: &Program, owner: u32) -> Result<(), AllocError>
    ensures { OnOk result (out.new.items ≡ out.old.items ++ part_text p.now (Part.Entry owner)) }
{
    out.extend_from_slice(b" entry of ")?;
    push_proc(out, p.main, owner)
}

/// Puts some steps.
fn push_steps(out: &mut Vec<u8>, p: &Program, b: Block) -> Result<(), AllocError>
    ensures { OnOk result (out.new.items ≡ out.old.items
        ++ (codes " steps of " ++ lines_text p.now b)) }
{
    out.extend_from_slice(b" steps of ")?;
    push_lines(out, p, b)
}

/// Puts the return from a call.
fn push_returned(out: &mut Vec<u8>, p: &Program, b: Block) -> Result<(), AllocError>
    ensures { OnOk result (out.new.items ≡ out.old.items
        ++ (codes " return to " ++ return_text p.now b)) }
{
    out.extend_from_slice(b" return to ")?;
    push_return(out, p, b)
}

/// Puts what a block stands for: the entry of a procedure, some steps, or the return from a call.
fn push_part(out: &mut Vec<u8>, p: &Program, part: Part) -> Result<(), AllocError>
    ensures { OnOk result (out.new.items ≡ out.old.items ++ part_text p.now part) }
{
    match part {
        Part::Entry(owner) => push_entry(out, p, owner),
        Part::Steps(b) => push_steps(out, p, b),
        Part::Returned(b, _, _) => push_returned(out, p, b),
    }
}

/// Puts the same of the block of a number, if there is one.
pub fn push_part_at(
    out: &mut Vec<u8>,
    p: &Program,
    parts: &[Part],
    k: usize,
) -> Result<(), AllocError>
    ensures { OnOk result (out.new.items ≡ out.old.items ++ part_at p.now parts.now k) }
{
    match parts.get(k) {
        Some(part) => push_part(out, p, *part),
        None => Ok(()),
    }
}

/// Puts where the code of a block begins, and how many cycles it takes.
#[tactic(auto, unfolding(crate::specs::RegisterText::range_text))]
pub fn push_range(out: &mut Vec<u8>, start: u32, cycles: u32) -> Result<(), AllocError>
    ensures { OnOk result (out.new.items ≡ out.old.items ++ range_text start cycles) }
{
    push_count(out, b" address ", u128::from(start))?;
    push_count(out, b" cycles ", u128::from(cycles))
}

/// Puts the same of the block of a number, if there is one.
pub fn push_range_at(
    out: &mut Vec<u8>,
    starts: &[u32],
    placed: &[Placed],
    k: usize,
) -> Result<(), AllocError>
    ensures { OnOk result (out.new.items ≡ out.old.items ++ range_at starts.now placed.now k) }
{
    let Some(start) = starts.get(k) else {
        return Ok(());
    };
    match placed.get(k) {
        Some(p) => push_range(out, *start, p.length),
        None => Ok(()),
    }
}

/// Puts the heading of a block of register code.
#[tactic(auto, unfolding(crate::specs::RegisterText::code_heading))]
fn push_heading(
    out: &mut Vec<u8>,
    ranges: &Ranges<'_>,
    k: usize,
    part: Part,
) -> Result<(), AllocError>
    ensures { OnOk result (out.new.items ≡ out.old.items
        ++ code_heading ranges.now.p.now ranges.now.starts.now ranges.now.placed.now k part) }
{
    out.extend_from_slice(b"code ")?;
    push_block(out, k as u128)?;
    push_part(out, ranges.p, part)?;
    push_range_at(out, ranges.starts, ranges.placed, k)?;
    out.extend_from_slice(b"\n")
}

/// Puts a home register, with a blank before it.
fn push_next_home(out: &mut Vec<u8>, on: &On<'_>, k: u32) -> Result<(), AllocError>
    ensures { OnOk result (out.new.items ≡ out.old.items
        ++ (codes " " ++ home_text on.now.m.now on.now.homes.now k)) }
{
    out.extend_from_slice(b" ")?;
    push_home(out, on.m, on.homes, k)
}

/// Puts home registers, each with a blank before it.
fn push_homes(out: &mut Vec<u8>, on: &On<'_>, live: &[u32]) -> Result<(), AllocError>
    ensures { OnOk result (out.new.items ≡ out.old.items
        ++ homes_text on.now.m.now on.now.homes.now live.now) }
{
    for k in live {
        push_next_home(out, on, *k)?;
    }
    Ok(())
}

/// Puts the steps of a block, how it ends, and the home registers that keep their words after it.
#[tactic(auto, unfolding(crate::specs::RegisterText::rblock_text))]
fn push_rblock(
    out: &mut Vec<u8>,
    units: &UnitSet,
    on: &On<'_>,
    b: &RBlock,
) -> Result<(), AllocError>
    ensures { OnOk result (out.new.items ≡ out.old.items
        ++ rblock_text (stated unit_meaning units.now) on.now.m.now on.now.homes.now b.now) }
{
    push_rsteps(out, units, on, b.steps.as_slice())?;
    push_exit(out, on, b.exit)?;
    out.extend_from_slice(b"\n live after :")?;
    push_homes(out, on, b.live_out.as_slice())?;
    out.extend_from_slice(b"\n")
}

/// Puts the same of the block of a number, if there is one.
fn push_rblock_at(
    out: &mut Vec<u8>,
    units: &UnitSet,
    on: &On<'_>,
    blocks: &[RBlock],
    k: usize,
) -> Result<(), AllocError>
    ensures { OnOk result (out.new.items ≡ out.old.items
        ++ rblock_at (stated unit_meaning units.now) on.now.m.now on.now.homes.now blocks.now k) }
{
    match blocks.get(k) {
        Some(b) => push_rblock(out, units, on, b),
        None => Ok(()),
    }
}

/// Puts a block of register code with its heading.
#[tactic(auto, unfolding(crate::specs::RegisterText::code_text))]
fn push_code(
    out: &mut Vec<u8>,
    units: &UnitSet,
    on: &On<'_>,
    ranges: &Ranges<'_>,
    blocks: &[RBlock],
    part: (usize, &Part),
) -> Result<(), AllocError>
    ensures { OnOk result (out.new.items ≡ out.old.items
        ++ code_text (stated unit_meaning units.now) on.now.m.now on.now.homes.now
        ranges.now.p.now ranges.now.starts.now ranges.now.placed.now blocks.now
        part.entry.0 part.entry.1.now) }
{
    push_heading(out, ranges, part.0, *part.1)?;
    push_rblock_at(out, units, on, blocks, part.0)
}

/// Puts the blocks of some parts.
pub fn push_register(
    out: &mut Vec<u8>,
    units: &UnitSet,
    on: &On<'_>,
    ranges: &Ranges<'_>,
    blocks: &[RBlock],
    parts: &[Part],
) -> Result<(), AllocError>
    ensures { OnOk result (out.new.items ≡ out.old.items
        ++ register_text (stated unit_meaning units.now) on.now.m.now on.now.homes.now
        ranges.now.p.now ranges.now.starts.now ranges.now.placed.now blocks.now parts.now) }
{
    for (k, part) in parts.iter().enumerate() {
        push_code(out, units, on, ranges, blocks, (k, part))?;
    }
    Ok(())
}
