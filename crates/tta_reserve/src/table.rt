//! The table of cycles.

use crate::adding::with_item;
use crate::leaving::{bus_for, least_template};
use crate::row::Row;
use std::alloc::{AllocError, Global};
use std::marker::Model;
use tta_arch::Machine as Target;
use tta_connect::Net;
use tta_moves::{Item, Slot, carried};

/// What the placed items of a block take, a row for each cycle.
#[derive(Drop)]
pub struct Table {
    rows: Vec<Row>,
}

impl Model for Table {
    ghost use Rattle.std.specs.Prelude.{List};
    ghost use Rattle.tta_reserve.specs.declared.row.Row.{Row};

    ghost Value = { List Row };

    ghost view = { λ t. t.rows.items };
}

ghost use Rattle.std.specs.Prelude.{◌≡◌, ◌<◌, Some, length, set, slice_get};

/// The row of a cycle.
fn row_at(rows: &[Row], cycle: usize) -> Row
    requires { cycle < length rows.now }
    ensures { slice_get rows.now cycle ≡ Some result }
{
    rows[cycle]
}

/// Puts a row in the place of a cycle's.
fn put_row(rows: &mut Vec<Row>, cycle: usize, row: Row)
    requires { cycle < length rows.old.items }
    ensures { rows.new.items ≡ set rows.old.items cycle row }
{
    rows[cycle] = row;
}

impl Table {
    ghost use Rattle.std.specs.Prelude.{◌≡◌, ◌≤◌, ◌<◌, ◌++◌, ◌∷◌, true, List, [], length};
    ghost use Rattle.std.specs.Prelude.{OnErr, OnOk};
    ghost use Rattle.tta_arch.specs.Machine.{Machine};
    ghost use Rattle.tta_connect.specs.Net.{IsNetOf};
    ghost use Rattle.tta_moves.specs.declared.items.PlacedItem.{PlacedItem};
    ghost use Rattle.tta_moves.specs.Bounds.{in_cycle};
    ghost use Rattle.tta_moves.specs.FirstFit.{fits_beside};
    ghost use Rattle.tta_reserve.specs.Taken.{is_apart};
    ghost use Rattle.tta_reserve.specs.Booked.{StandsFor, IsLeastSlot};

    /// A table without cycles, which stands for no items. It takes no memory.
    pub fn new(alloc: Global) -> Table
        ensures value { result ≡ [] }
        ensures none { (m : Machine) → StandsFor result m [] }
    {
        Table {
            rows: Vec::new(alloc),
        }
    }

    /// Takes all cycles out, so that the table stands for no items. It keeps its memory for the
    /// next block, and its time depends on the cycles that it takes out alone.
    pub fn clear(&mut self)
        ensures value { self.new ≡ [] }
        ensures none { (m : Machine) → StandsFor self.new m [] }
    {
        self.rows.clear();
    }

    /// Makes room for so many cycles, and keeps the room and the bookings that are there. It fails
    /// only where there is no memory, and then the table is as before.
    pub fn reserve(&mut self, cycles: u32) -> Result<(), AllocError>
        ensures room { OnOk result (cycles ≤ length self.new) }
        ensures longer { OnOk result (length self.old ≤ length self.new) }
        ensures kept { (m : Machine) (placed : List PlacedItem) → StandsFor self.old m placed
            → OnOk result (StandsFor self.new m placed) }
        ensures refused { OnErr result (self.new ≡ self.old) }
    {
        let count = cycles as usize;
        if count <= self.rows.len() {
            return Ok(());
        }
        self.rows.resize(count, Row::empty())?;
        Ok(())
    }

    /// The least slot on which an item fits in a cycle beside the items that are booked there, if
    /// it goes into another place than they do. It is None exactly where the item fits on no slot.
    pub fn fits(&self, m: &Target, net: &Net, item: &Item, cycle: u32) -> Option<Slot>
        requires net { IsNetOf net.now m.now }
        requires there { cycle < length self.now }
        ensures { (placed : List PlacedItem) → StandsFor self.now m.now placed
            → is_apart item.now (in_cycle cycle placed) ≡ true
            → IsLeastSlot m.now placed item.now cycle result }
    {
        let r = row_at(self.rows.as_slice(), cycle as usize);
        match *item {
            Item::Move { guard, src, dst } => {
                let bus = bus_for(&r, m, net, carried(m, src), dst, guard)?;
                Some(Slot::Bus(bus))
            }
            Item::Long { imm, reg, .. } => {
                let t = least_template(&r, m.templates.as_slice(), imm, reg)?;
                Some(Slot::Template(t))
            }
        }
    }

    /// Books an item on a slot of a cycle, where it fits beside the items that are booked there.
    pub fn book(&mut self, m: &Target, item: Item, slot: Slot, cycle: u32)
        requires { cycle < length self.old }
        ensures { (placed : List PlacedItem) → StandsFor self.old m.now placed
            → fits_beside m.now placed item cycle slot ≡ true
            → StandsFor self.new m.now
            (placed ++ (record { item = item; cycle = cycle; slot = slot }) ∷ []) }
    {
        let at = cycle as usize;
        let row = row_at(self.rows.as_slice(), at);
        let more = with_item(row, m.templates.as_slice(), item, slot);
        put_row(&mut self.rows, at, more);
    }
}
