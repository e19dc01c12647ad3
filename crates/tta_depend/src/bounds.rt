//! The bounds of a block.

ghost use Rattle.std.specs.Prelude.{◌≡◌, ◌<◌, true, nat_lt, if◌then◌else◌, Some, None};
ghost use Rattle.std.specs.Option.{option_map_or};
ghost use Rattle.tta_moves.specs.Touches.{is_control};

use crate::rows::{
    Row, against_free, against_shown, enter_reads, enter_writes, next_round, unused_rows,
};
use crate::touches::{lasts, reads_by, writes_by};
use std::alloc::{AllocError, Global};
use std::marker::Model;
use tta_arch::Machine;
use tta_moves::Item;
use tta_moves::parts::is_control;

/// What the items that are placed so far ask of the next one.
#[derive(Drop)]
pub struct Bounds {
    rows: Vec<Row>,
    round: u32,
    /// The cycle after the last that an item takes.
    end: u32,
    /// The cycle of the control item.
    control: Option<u32>,
    /// How many cycles after a control item its effect shows.
    delay: u32,
}

impl Model for Bounds {
    ghost use Rattle.tta_depend.specs.Stands.{Kept, kept, IsKept};

    ghost Value = { Kept };

    ghost view = { λ b. kept b.rows.items b.round b.end b.control b.delay };

    ghost invariant = { λ b. IsKept (kept b.rows.items b.round b.end b.control b.delay) };
}

/// The cycle of an item, if it is a control item.
fn control_at(item: Item, cycle: u32) -> Option<u32>
    requires { cycle < 1073741824 }
    ensures value { result ≡ (if is_control item then Some cycle else None) }
    ensures soon { option_map_or (λ at. nat_lt at 1073741824) result true ≡ true }
{
    if is_control(item) { Some(cycle) } else { None }
}

impl Bounds {
    ghost use Rattle.std.specs.Prelude.{◌≡◌, ◌+◌, ◌-◌, ◌<◌, ◌++◌, ◌∷◌, [], List, true, None, IfOk};
    ghost use Rattle.std.specs.Prelude.{if◌then◌else◌};
    ghost use Rattle.tta_arch.specs.Machine.{Machine as Target};
    ghost use Rattle.tta_moves.specs.Touches.{is_control};
    ghost use Rattle.tta_moves.specs.declared.items.PlacedItem.{PlacedItem};
    ghost use Rattle.tta_moves.specs.declared.items.Slot.{Slot};
    ghost use Rattle.tta_moves.specs.Bounds.{least, length_of};
    ghost use Rattle.tta_depend.specs.Stands.{is_within, end_of, Stands};

    /// The bounds of a machine, with no item placed. It fails only where there is no memory, and
    /// the later calls take none.
    pub fn new(alloc: Global, m: &Machine) -> Result<Bounds, AllocError>
        ensures { IfOk result (λ b. Stands b m.now []) }
    {
        let rows = unused_rows(alloc)?;
        Ok(Bounds {
            rows,
            round: 0,
            end: 0,
            control: None,
            delay: u32::from(m.control.delay),
        })
    }

    /// The least cycle that the placed items allow an item.
    pub fn least(&self, m: &Machine, item: &Item) -> u32
        requires { is_within m.now item.now ≡ true }
        ensures { (placed : List PlacedItem) → Stands self.now m.now placed
            → result ≡ least m.now placed item.now }
    {
        let reads = reads_by(*item);
        let writes = writes_by(m, *item);
        let read = against_shown(self.rows.as_slice(), self.round, reads.as_slice());
        let written = against_free(self.rows.as_slice(), self.round, writes.as_slice());
        let over = self.over_end(*item);
        read.max(written).max(over)
    }

    /// The least cycle in which an item does not end the block before another is over.
    fn over_end(&self, item: Item) -> u32
        ensures { result ≡ (if is_control item then self.now.end - (1 + self.now.delay) else 0) }
    {
        if is_control(item) {
            self.end.saturating_sub(1 + self.delay)
        } else {
            0
        }
    }

    /// Places an item in a cycle, after the others of the list.
    pub fn place(&mut self, m: &Machine, item: &Item, cycle: u32)
        requires within { is_within m.now item.now ≡ true }
        requires last { self.old.control ≡ None }
        requires soon { cycle < 1073741824 }
        ensures { (placed : List PlacedItem) (slot : Slot) → Stands self.old m.now placed
            → Stands self.new m.now
            (placed ++ (record { item = item.now; cycle = cycle; slot = slot }) ∷ []) }
    {
        let writes = writes_by(m, *item);
        let reads = reads_by(*item);
        enter_writes(&mut self.rows, self.round, writes.as_slice(), cycle);
        enter_reads(&mut self.rows, self.round, reads.as_slice(), cycle);
        let end = self.end.max(cycle + lasts(m, *item));
        self.end = end;
        // No control item was placed before.
        let control = control_at(*item, cycle);
        self.control = control;
    }

    /// How many cycles a block of the placed items takes.
    pub fn length(&self) -> u32
        ensures { (m : Target) (placed : List PlacedItem) → Stands self.now m placed
            → result ≡ length_of m placed }
    {
        match self.control {
            Some(cycle) => cycle + 1 + self.delay,
            None => self.end.max(1),
        }
    }

    /// The cycle after the last that a placed item takes, 0 where none is placed.
    pub fn end(&self) -> u32
        ensures { (m : Target) (placed : List PlacedItem) → Stands self.now m placed
            → result ≡ end_of m placed }
    {
        self.end
    }

    /// Takes all items away, for the next block. It takes no memory, and its time does not grow with
    /// the table.
    pub fn clear(&mut self, m: &Machine)
        ensures { Stands self.new m.now [] }
    {
        let round = next_round(&mut self.rows, self.round);
        self.round = round;
        self.end = 0;
        self.control = None;
        self.delay = u32::from(m.control.delay);
    }
}
