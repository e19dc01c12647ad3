//! The parts of a program in the order of their code.

ghost use Rattle.std.specs.Prelude.{◌≡◌, ◌<◌, ◌==◌, ◌++◌, Some, length, OnOk, IfOk, if◌then◌else◌, []};
ghost use Rattle.std.specs.List.{flat_map, list_any};
ghost use Rattle.tta_program.specs.declared.step.Step.{Step};
ghost use Rattle.tta_program.specs.Rules.{IsProgram};
ghost use Rattle.tta_flow.specs.Blocks.{IsFlow};
ghost use Rattle.tta_lower.specs.Liveness.{Block as BlockType, Has};
ghost use Rattle.tta_lower.specs.Laid.{IsSpan};
ghost use Rattle.tta_lower.specs.LoweringInput.{first_by};
ghost use Rattle.tta_lower.specs.Layout.{vars_of};
ghost use Rattle.tta_lower.specs.Lower.{numbers, return_after, span_parts, entry_parts, parts};
ghost use Rattle.tta_lower.specs.Tables.{Added, IsSplit};

use crate::part::Part;
use crate::plan::{is_live_first, main_of, proc_count, vars_in};
use crate::row::step_there;
use std::alloc::{AllocError, Global};
use tta_flow::{Block, Live};
use tta_program::{Program, Step};

/// Puts a block to those of its procedure.
fn add_span(table: &mut Vec<Vec<Block>>, b: Block) -> Result<(), AllocError>
    ensures { OnOk result (Added b table.old.items table.new.items) }
{
    if (b.owner as usize) < table.len() {
        let spans = &mut table[b.owner as usize];
        spans.push(b)?;
    }
    Ok(())
}

/// So many empty lists.
fn no_spans(alloc: Global, count: usize) -> Result<Vec<Vec<Block>>, AllocError>
    ensures { IfOk result (λ table. IsSplit count [] table.items) }
{
    let mut table = Vec::new(alloc);
    for _ in 0..count {
        table.push(Vec::new(alloc))?;
    }
    Ok(table)
}

/// The blocks of each procedure.
fn spans_by_owner(
    alloc: Global,
    procs: usize,
    blocks: &[Block],
) -> Result<Vec<Vec<Block>>, AllocError>
    ensures { IfOk result (λ table. IsSplit procs blocks.now table.items) }
{
    let mut table = no_spans(alloc, procs)?;
    for b in blocks {
        add_span(&mut table, *b)?;
    }
    Ok(table)
}

/// The part after a block's last step, where that is a call with a destination.
fn push_return(into: &mut Vec<Part>, b: Block, last: &Step) -> Result<(), AllocError>
    ensures { OnOk result (into.new.items ≡ into.old.items ++ return_after b (Some last.now)) }
{
    if let Step::Invoke {
        d: Some(d),
        callee,
        ..
    } = last
    {
        into.push(Part::Returned(b, *d, *callee))?;
    }
    Ok(())
}

/// The parts of a block.
fn push_span(into: &mut Vec<Part>, p: &Program, b: Block) -> Result<(), AllocError>
    requires span { IsSpan p.now b }
    ensures { OnOk result (into.new.items ≡ into.old.items ++ span_parts p.now b) }
{
    into.push(Part::Steps(b))?;
    push_return(into, b, step_there(p, b.owner, b.last as usize))
}

/// The parts of some blocks.
fn push_spans(into: &mut Vec<Part>, p: &Program, blocks: &[Block]) -> Result<(), AllocError>
    requires spans { (b : BlockType) → Has blocks.now b → IsSpan p.now b }
    ensures { OnOk result (into.new.items ≡ into.old.items
        ++ flat_map (span_parts p.now) blocks.now) }
{
    for b in blocks {
        push_span(into, p, *b)?;
    }
    Ok(())
}

/// Whether a variable is live at the entry of a procedure.
#[tactic(auto, using(crate::proofs::Counted::any_skip, crate::proofs::Counted::any_here))]
fn is_any_live(p: &Program, live: &Live, owner: u32) -> bool
    requires there { owner < length p.now.procs }
    ensures { result ≡ list_any (first_by p.now live.now owner)
        (numbers 0 (vars_of p.now owner)) }
{
    let vars = vars_in(p, owner);
    for x in 0..vars {
        if is_live_first(p, live, owner, x) {
            return true;
        }
    }
    false
}

/// The entry part of a procedure, if it has one.
fn push_entry(into: &mut Vec<Part>, p: &Program, live: &Live, owner: u32) -> Result<(), AllocError>
    requires there { owner < length p.now.procs }
    ensures { OnOk result (into.new.items ≡ into.old.items
        ++ entry_parts p.now [] (first_by p.now live.now) owner) }
{
    let is_any = is_any_live(p, live, owner);
    if owner != p.main || is_any {
        into.push(Part::Entry(owner))?;
    }
    Ok(())
}

/// The parts of a procedure with these blocks.
fn push_proc(
    into: &mut Vec<Part>,
    p: &Program,
    live: &Live,
    blocks: &[Block],
    owner: u32,
) -> Result<(), AllocError>
    requires there { owner < length p.now.procs }
    requires spans { (b : BlockType) → Has blocks.now b → IsSpan p.now b }
    ensures { OnOk result (into.new.items ≡ into.old.items
        ++ (entry_parts p.now [] (first_by p.now live.now) owner
        ++ flat_map (span_parts p.now) blocks.now)) }
{
    push_entry(into, p, live, owner)?;
    push_spans(into, p, blocks)
}

/// The parts of a procedure with these blocks, but of main none.
fn push_other(
    into: &mut Vec<Part>,
    p: &Program,
    live: &Live,
    blocks: &[Block],
    owner: u32,
) -> Result<(), AllocError>
    requires there { owner < length p.now.procs }
    requires spans { (b : BlockType) → Has blocks.now b → IsSpan p.now b }
    ensures { OnOk result (into.new.items ≡ into.old.items
        ++ (if owner == p.now.main then []
        else entry_parts p.now [] (first_by p.now live.now) owner
        ++ flat_map (span_parts p.now) blocks.now)) }
{
    if owner != p.main {
        push_proc(into, p, live, blocks, owner)?;
    }
    Ok(())
}

/// The parts of a program with these blocks.
#[tactic(auto, using(crate::proofs::Facts::procs_few))]
pub fn all_parts(
    alloc: Global,
    p: &Program,
    live: &Live,
    blocks: &[Block],
) -> Result<Vec<Part>, AllocError>
    requires sound { IsProgram p.now }
    requires flow { IsFlow p.now blocks.now }
    ensures { IfOk result (λ all. all.items
        ≡ parts p.now blocks.now (first_by p.now live.now)) }
{
    let main = main_of(p);
    let procs = proc_count(p);
    let table = spans_by_owner(alloc, procs, blocks)?;
    let mut into = Vec::new(alloc);
    push_proc(&mut into, p, live, table[main as usize].as_slice(), main)?;
    for owner in 0..procs {
        push_other(&mut into, p, live, table[owner].as_slice(), owner as u32)?;
    }
    Ok(into)
}
