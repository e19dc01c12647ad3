//! First fit: each item in the first cycle in which it fits.

ghost use Rattle.std.specs.Prelude.{◌≡◌, ◌≤◌, true, List, length, IfOk};
ghost use Rattle.tta_arch.specs.Rules.{IsMachine};
ghost use Rattle.tta_connect.specs.Net.{IsNetOf};
ghost use Rattle.tta_moves.specs.Slots.{is_list};
ghost use Rattle.tta_moves.specs.Bounds.{Respects};
ghost use Rattle.tta_moves.specs.FirstFit.{IsFirstFit};
ghost use Rattle.tta_moves.specs.declared.items.PlacedItem.{PlacedItem as Entry};
ghost use Rattle.tta_sched.specs.Room.{HasRoom};
ghost use Rattle.tta_sched.specs.First.{Asks, FindsFirst};

use std::alloc::{AllocError, Global};
use tta_arch::Machine;
use tta_connect::{Net, TargetMachine};
use tta_depend::Bounds;
use tta_list::Items;
use tta_moves::{BlockList, Item, Placed, PlacedItem};
use tta_reserve::Table;

/// Where an item fits first beside the booked items, in the cycles from its bound up to an end. It
/// is None exactly where it fits in none of them.
fn first_from(
    table: &Table,
    on: &TargetMachine<'_>,
    item: &Item,
    from: u32,
    end: u32,
) -> Option<PlacedItem>
    requires there { end ≤ length table.now }
    ensures { (placed : List Entry) → Asks on.now.machine.now table.now placed item.now from
        → FindsFirst on.now.machine.now placed item.now end result }
{
    for cycle in from..end {
        if let Some(slot) = table.fits(on.machine, on.net, item, cycle) {
            return Some(PlacedItem {
                item: *item,
                cycle,
                slot,
            });
        }
    }
    None
}

/// What placement keeps from block to block: the tables take their memory once, and serve every
/// block.
#[derive(Drop)]
pub struct Placer {
    bounds: Bounds,
    table: Table,
}

impl Placer {
    ghost use Rattle.std.specs.Prelude.{◌≡◌, ◌<◌, true, OnOk, IfOk};
    ghost use Rattle.tta_moves.specs.Slots.{has_slot, is_list};
    ghost use Rattle.tta_moves.specs.Bounds.{Respects};
    ghost use Rattle.tta_moves.specs.FirstFit.{IsFirstFit};
    ghost use Rattle.tta_depend.specs.Stands.{end_of};
    ghost use Rattle.tta_sched.specs.Room.{HasRoom};
    ghost use Rattle.tta_sched.specs.First.{no_control, Keeps, AddsFirst};

    /// The tables of a machine, with nothing placed. It fails only where there is no memory.
    pub fn new(alloc: Global, m: &Machine) -> Result<Placer, AllocError> {
        let bounds = Bounds::new(alloc, m)?;
        Ok(Placer {
            bounds,
            table: Table::new(alloc),
        })
    }

    /// Places an item where it fits first, after the items that are placed. It fails only where
    /// there is no memory.
    fn place_item(
        &mut self,
        placed: &mut Items<PlacedItem>,
        item: &Item,
        on: &TargetMachine<'_>,
    ) -> Result<(), AllocError>
        requires rules { IsMachine on.now.machine.now }
        requires slot { has_slot on.now.machine.now item.now ≡ true }
        requires controls { no_control placed.old ≡ true }
        requires keeps { Keeps on.now.machine.now self.old.bounds self.old.table placed.old }
        requires soon { end_of on.now.machine.now placed.old < 1073741823 }
        ensures keeps { OnOk result
            (Keeps on.now.machine.now self.new.bounds self.new.table placed.new) }
        ensures adds { OnOk result
            (AddsFirst on.now.machine.now placed.old item.now placed.new) }
    {
        let m = on.machine;
        let from = self.bounds.least(m, item);
        let end = self.bounds.end() + 1;
        self.table.reserve(end)?;
        match first_from(&self.table, on, item, from, end) {
            Some(x) => {
                placed.push(x)?;
                self.bounds.place(m, &x.item, x.cycle);
                self.table.book(m, x.item, x.slot, x.cycle);
                Ok(())
            }
            None => unreachable!(),
        }
    }

    /// Places the items of a block in their order, each in the least cycle that its bound allows and
    /// in which it fits beside those before it, on the least bus or template. It fails only where
    /// there is no memory.
    pub fn place(
        &mut self,
        alloc: Global,
        b: &BlockList,
        on: &TargetMachine<'_>,
    ) -> Result<Placed, AllocError>
        requires list { is_list on.now.machine.now b.now.items ≡ true }
        ensures first { IfOk result (λ p. IsFirstFit on.now.machine.now b.now.items p) }
        ensures respects { IfOk result (λ p. Respects on.now.machine.now b.now.items p) }
        ensures room { IfOk result (λ p. HasRoom on.now.machine.now b.now.items p) }
    {
        on.machine.rules();
        self.bounds.clear(on.machine);
        self.table.clear();
        let room = Vec::with_capacity(alloc, b.items.len())?;
        let mut placed = Items::of(room);
        for x in b.items.as_slice() {
            self.place_item(&mut placed, x, on)?;
        }
        let length = self.bounds.length();
        Ok(Placed {
            items: placed,
            length,
        })
    }
}

/// Places the items of a block by first fit, with tables of its own. The only error is out of
/// memory.
pub fn place_block(
    alloc: Global,
    b: &BlockList,
    m: &Machine,
    net: &Net,
) -> Result<Placed, AllocError>
    requires net { IsNetOf net.now m.now }
    requires list { is_list m.now b.now.items ≡ true }
    ensures first { IfOk result (λ p. IsFirstFit m.now b.now.items p) }
    ensures respects { IfOk result (λ p. Respects m.now b.now.items p) }
    ensures room { IfOk result (λ p. HasRoom m.now b.now.items p) }
{
    let on = TargetMachine { machine: m, net };
    let mut placer = Placer::new(alloc, m)?;
    let placed = placer.place(alloc, b, &on)?;
    Ok(placed)
}
