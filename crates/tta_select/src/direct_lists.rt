//! Programs of constants.

ghost use Rattle.std.specs.Prelude.{◌≡◌, ◌++◌, ◌∷◌, [], IfOk};
ghost use Rattle.std.specs.Prelude.{ℕ, List, map};
ghost use Rattle.std.specs.List.{flat_map};
ghost use Rattle.tta_lir.specs.Direct.{one_block};
ghost use Rattle.tta_select.specs.Direct.{out_of, direct_step};
ghost use Rattle.tta_select.specs.Direct.{direct_block, direct_lists, direct_list};
ghost use Rattle.tta_select.specs.Statement.{IsDirect, IsDirectSelection};

use crate::calling::no_call;
use crate::operands::trigger_at;
use crate::putting::put_move;
use std::alloc::{AllocError, Global};
use tta_arch::{Dest, Machine, Op, Source};
use tta_connect::{Call, anywhere};
use tta_lir::{RBlock, RSrc, RStep, Rir};
use tta_list::Items;
use tta_moves::{BlockList, Item, ItemSource};

/// The operation that outputs words.
fn out_of(m: &Machine) -> Call
    ensures { result ≡ out_of m.now }
{
    match anywhere(m, Op::Out) {
        Some(f) => f,
        None => no_call(Op::Out),
    }
}

/// Puts the move of a constant to the output at the end.
fn put_direct(items: &mut Items<Item>, f: Call, step: RStep) -> Result<(), AllocError>
    ensures { IfOk result (λ x. items.new ≡ items.old ++ direct_step f step) }
{
    match step {
        RStep::Put { v: RSrc::Word(w) } => {
            put_move(
                items,
                None,
                ItemSource::Port(Source::Value(w)),
                trigger_at(f),
            )
        }
        _ => Ok(()),
    }
}

/// Puts the moves of constants to the output at the end.
#[tactic(auto, using(crate::proofs::Walks::flat_more, crate::proofs::Walks::flat_done))]
fn put_all(items: &mut Items<Item>, f: Call, steps: &[RStep]) -> Result<(), AllocError>
    ensures { IfOk result (λ x. items.new ≡ items.old ++ flat_map (direct_step f) steps.now) }
{
    for step in steps {
        put_direct(items, f, *step)?;
    }
    Ok(())
}

/// The list of a block whose every step outputs, in a machine that joins what they need.
fn direct_block(alloc: Global, f: Call, b: &RBlock) -> Result<BlockList, AllocError>
    ensures { IfOk result (λ x. x ≡ direct_block f b.now) }
{
    let mut items = Items::new(alloc);
    put_all(&mut items, f, b.steps.as_slice())?;
    put_move(
        &mut items,
        None,
        ItemSource::Port(Source::Value(0)),
        Dest::Halt,
    )?;
    Ok(BlockList {
        items,
        live_out: Items::new(alloc),
    })
}

/// The list of each block.
#[tactic(auto, using(crate::proofs::Walks::map_more, crate::proofs::Walks::map_done))]
fn direct_blocks(alloc: Global, f: Call, blocks: &[RBlock]) -> Result<Vec<BlockList>, AllocError>
    ensures { IfOk result (λ lists. lists.items ≡ map (direct_block f) blocks.now) }
{
    let mut lists = Vec::new(alloc);
    for b in blocks {
        lists.push(direct_block(alloc, f, b)?)?;
    }
    Ok(lists)
}

/// The lists of register code that outputs constants. For a direct pair it is one list, with one item
/// for each step and one for the exit. It does what the code does, and the machine can carry it out.
/// The only error is out of memory.
pub fn select_direct(alloc: Global, r: &Rir, m: &Machine) -> Result<Vec<BlockList>, AllocError>
    ensures selection { IfOk result (λ lists. (words : List ℕ) → IsDirect m.now words r.now
        → IsDirectSelection m.now r.now lists.items) }
    ensures all { IfOk result (λ lists. lists.items ≡ direct_lists m.now r.now) }
    ensures one { IfOk result (λ lists. (words : List ℕ) → r.now.blocks ≡ one_block words ∷ []
        → lists.items ≡ direct_list (out_of m.now) words ∷ []) }
{
    let lists = direct_blocks(alloc, out_of(m), r.blocks.as_slice())?;
    Ok(lists)
}
