//! Register code becomes lists.

ghost use Rattle.std.specs.Prelude.{◌≡◌, true, IfOk, get_or, length, map};
ghost use Rattle.std.specs.List.{list_all};
ghost use Rattle.tta_ops.specs.Set.{stated};
ghost use Rattle.tta_connect.specs.Net.{IsNetOf};
ghost use Rattle.tta_select.specs.Select.{list_of, selected, items_of_block};
ghost use Rattle.tta_select.specs.Statement.{IsGiven, IsSelection};
ghost use Rattle.tta_select.specs.Needs.{fits_block};

use crate::calling::call_of;
use crate::dispatch::put_steps;
use crate::leaving::put_exit;
use crate::target::SelectionTarget;
use std::alloc::{AllocError, Global};
use tta_arch::{Machine, Op};
use tta_connect::{Choice, Net};
use tta_lir::{RBlock, Rir};
use tta_list::Items;
use tta_moves::{BlockList, Item};
use tta_ops::UnitSet;

/// A home register by its number, and register 0 of file 0 where there is none.
fn home_or_first(homes: &[(u8, u8)], k: u32) -> (u8, u8)
    ensures { result ≡ get_or homes.now k (0, 0) }
{
    if (k as usize) < homes.len() {
        homes[k as usize]
    } else {
        (0, 0)
    }
}

/// The home registers that stay after a block.
#[tactic(auto, using(crate::proofs::Walks::map_more, crate::proofs::Walks::map_done))]
fn live_homes(alloc: Global, c: &Choice, live: &[u32]) -> Result<Items<(u8, u8)>, AllocError>
    ensures { IfOk result (λ xs. xs ≡ map (λ k. get_or c.now.homes k (0, 0)) live.now) }
{
    let homes = c.homes.as_slice();
    let mut pairs = Items::new(alloc);
    for k in live {
        pairs.push(home_or_first(homes, *k))?;
    }
    Ok(pairs)
}

/// The items of a block.
#[tactic(auto, unfolding(crate::specs::Select::items_of_block))]
fn block_items(
    alloc: Global,
    on: &SelectionTarget<'_>,
    units: &UnitSet,
    blocks: usize,
    b: &RBlock,
) -> Result<Items<Item>, AllocError>
    requires fits { fits_block (stated unit_meaning units.now) on.now.machine.now
        on.now.choice.now blocks b.now ≡ true }
    ensures { IfOk result (λ xs. xs ≡ items_of_block on.now.machine.now on.now.choice.now
        (stated unit_meaning units.now) b.now) }
{
    let mut items = Items::new(alloc);
    put_steps(&mut items, on, units, b.steps.as_slice())?;
    put_exit(&mut items, on, units, blocks, b.exit)?;
    Ok(items)
}

/// The list of a block.
fn list_of(
    alloc: Global,
    on: &SelectionTarget<'_>,
    units: &UnitSet,
    blocks: usize,
    b: &RBlock,
) -> Result<BlockList, AllocError>
    requires fits { fits_block (stated unit_meaning units.now) on.now.machine.now
        on.now.choice.now blocks b.now ≡ true }
    ensures { IfOk result (λ x. x
        ≡ list_of on.now.machine.now on.now.choice.now (stated unit_meaning units.now) b.now) }
{
    let items = block_items(alloc, on, units, blocks, b)?;
    let live_out = live_homes(alloc, on.choice, b.live_out.as_slice())?;
    Ok(BlockList { items, live_out })
}

/// The lists of blocks.
#[tactic(auto, using(crate::proofs::Walks::map_more, crate::proofs::Walks::map_done))]
fn select_all(
    alloc: Global,
    r: &Rir,
    on: &SelectionTarget<'_>,
    units: &UnitSet,
) -> Result<Vec<BlockList>, AllocError>
    requires fits { list_all (fits_block (stated unit_meaning units.now) on.now.machine.now
        on.now.choice.now (length r.now.blocks)) r.now.blocks ≡ true }
    ensures { IfOk result (λ lists. lists.items
        ≡ selected on.now.machine.now on.now.choice.now (stated unit_meaning units.now) r.now) }
{
    let blocks = r.blocks.len();
    let mut lists = Vec::new(alloc);
    for b in r.blocks.as_slice() {
        lists.push(list_of(alloc, on, units, blocks, b)?)?;
    }
    Ok(lists)
}

/// The lists of register code, one a block. Where they are given a valid machine over the units, what
/// `cover` chooses on it and code that it can be given, they do what the code does, the machine can
/// carry them out, and they do no more than their blocks ask for. The only error is out of memory.
pub fn select(
    alloc: Global,
    r: &Rir,
    m: &Machine,
    net: &Net,
    c: &Choice,
    units: &UnitSet,
) -> Result<Vec<BlockList>, AllocError>
    requires net { IsNetOf net.now m.now }
    requires fits { list_all (fits_block (stated unit_meaning units.now) m.now c.now
        (length r.now.blocks)) r.now.blocks ≡ true }
    ensures selection { let U = stated unit_meaning units.now in
        IfOk result (λ lists. IsGiven U m.now c.now r.now
        → IsSelection U m.now c.now r.now lists.items) }
    ensures lists { IfOk result (λ lists. lists.items
        ≡ selected m.now c.now (stated unit_meaning units.now) r.now) }
{
    let on = SelectionTarget {
        machine: m,
        net,
        choice: c,
        ldf: call_of(m, c, Op::Ldf),
        stf: call_of(m, c, Op::Stf),
    };
    let lists = select_all(alloc, r, &on, units)?;
    Ok(lists)
}
