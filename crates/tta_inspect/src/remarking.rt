//! What is remarked of the rows of the code of a program.

ghost use Rattle.std.specs.Prelude.{◌≡◌, ◌++◌, [], ◌∷◌, IfOk, OnOk};
ghost use Rattle.tta_ops.specs.Set.{stated};
ghost use Rattle.tta_link.specs.Linked.{starts_from};
ghost use Rattle.tta_stages.specs.RegisterText.{named_text};
ghost use Rattle.tta_stages.specs.Stages.{AreStages};
ghost use Rattle.tta_inspect.specs.Remarks.{block_remark, block_remarks, remark_at, remarks_of};
ghost use Rattle.tta_inspect.specs.Remarks.{start_remark};

use std::alloc::{AllocError, Global};
use tta_arch::Machine;
use tta_block_profile::{Blocks, Compiled};
use tta_draw::Remark;
use tta_list::Name;
use tta_lower::Part;
use tta_moves::Placed;
use tta_program::Program;
use tta_stages::{block_starts, push_block, push_part_at};

/// The name of a block, and what it stands for.
#[tactic(auto, unfolding(tta_stages::specs::RegisterText::named_text))]
fn named(alloc: Global, p: &Program, parts: &[Part], k: usize) -> Result<Name, AllocError>
    ensures { IfOk result (λ n. n ≡ named_text p.now parts.now k) }
{
    let mut text = Vec::new(alloc);
    push_block(&mut text, k as u128)?;
    push_part_at(&mut text, p, parts, k)?;
    Name::new(alloc, text.as_slice())
}

/// Puts the remark on a row in which the block of a number begins.
fn push_at(
    remarks: &mut Vec<Remark>,
    alloc: Global,
    on: &Blocks<'_>,
    row: u32,
    k: usize,
) -> Result<(), AllocError>
    ensures { OnOk result (remarks.new.items ≡ remarks.old.items
        ++ remark_at on.now.program.now on.now.parts.now row k ∷ []) }
{
    let text = named(alloc, on.program, on.parts, k)?;
    remarks.push(Remark { row, text })?;
    Ok(())
}

/// Puts the remark on the row in which the block of a number begins, if it is known.
fn push_start(
    remarks: &mut Vec<Remark>,
    alloc: Global,
    on: &Blocks<'_>,
    k: usize,
) -> Result<(), AllocError>
    ensures { OnOk result (remarks.new.items ≡ remarks.old.items
        ++ start_remark on.now.program.now on.now.parts.now on.now.starts.now k) }
{
    match on.starts.get(k) {
        Some(start) => push_at(remarks, alloc, on, *start, k),
        None => Ok(()),
    }
}

/// Puts the remark on the row in which a block begins, if it has code.
fn push_remark(
    remarks: &mut Vec<Remark>,
    alloc: Global,
    on: &Blocks<'_>,
    k: usize,
    b: &Placed,
) -> Result<(), AllocError>
    ensures { OnOk result (remarks.new.items ≡ remarks.old.items
        ++ block_remark on.now.program.now on.now.parts.now on.now.starts.now k b.now) }
{
    if b.length == 0 {
        return Ok(());
    }
    push_start(remarks, alloc, on, k)
}

/// Puts the remarks on the rows in which blocks begin.
fn push_remarks(remarks: &mut Vec<Remark>, alloc: Global, on: &Blocks<'_>) -> Result<(), AllocError>
    ensures { OnOk result (remarks.new.items ≡ remarks.old.items
        ++ block_remarks on.now.program.now on.now.parts.now on.now.starts.now on.now.placed.now) }
{
    for (k, b) in on.placed.iter().enumerate() {
        push_remark(remarks, alloc, on, k, b)?;
    }
    Ok(())
}

/// The address at which the code of each block begins, and at last the one where the code ends.
fn starts_of(alloc: Global, on: &Compiled<'_>) -> Result<Vec<u32>, AllocError>
    requires { AreStages (stated unit_meaning on.now.units.now) on.now.m.now on.now.p.now
        on.now.stages.now }
    ensures { IfOk result (λ v. v.items
        ≡ starts_from 0 on.now.stages.now.planned.placed.items) }
{
    on.m.rules();
    block_starts(alloc, on.stages.planned.placed.as_slice())
}

/// What is remarked of the rows of the code of a program: where its blocks begin, and the lines that they
/// stand for. It fails only where there is no memory.
pub fn remarks_of(alloc: Global, on: &Compiled<'_>) -> Result<Vec<Remark>, AllocError>
    requires { AreStages (stated unit_meaning on.now.units.now) on.now.m.now on.now.p.now
        on.now.stages.now }
    ensures { IfOk result (λ v. v.items ≡ remarks_of on.now.p.now on.now.stages.now) }
{
    let starts = starts_of(alloc, on)?;
    let blocks = Blocks {
        program: on.p,
        parts: on.stages.lowered.parts.as_slice(),
        starts: starts.as_slice(),
        placed: on.stages.planned.placed.as_slice(),
    };
    let mut remarks = Vec::new(alloc);
    push_remarks(&mut remarks, alloc, &blocks)?;
    Ok(remarks)
}
