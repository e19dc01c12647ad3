//! How many cycles a block takes at least, in whatever order, on whichever units and however bypassed.
//! Nothing is proved of the number: where the shortest placement takes no more cycles, no other
//! candidate is looked for.

use std::alloc::{AllocError, Global};
use tta_arch::{Dest, Machine, Op, UnitOp, same_op};
use tta_list::entry_at;
use tta_moves::Item;
use tta_moves::numbers::{PLACES, guard_place, operand, port, read_place, written_place};
use tta_moves::parts::{is_unguarded, operation, source_of};

/// Whether a unit's operations take as long as the same operations of another.
fn take_as_long(ops: &[UnitOp], others: &[UnitOp]) -> bool {
    for o in ops {
        for q in others {
            if same_op(o.op, q.op) && o.latency != q.latency {
                return false;
            }
        }
    }
    true
}

/// Whether each operation takes as long on each unit that offers it.
fn is_even(m: &Machine) -> bool {
    for u in m.units.as_slice() {
        for v in m.units.as_slice() {
            if !take_as_long(u.ops.as_slice(), v.ops.as_slice()) {
                return false;
            }
        }
    }
    true
}

/// How many cycles pass from the start of an operation to its result, or to its end where it has none.
/// A load of a frame slot may be served from what is at hand, so it counts for nothing.
fn passes(o: UnitOp) -> u32 {
    match o.op {
        Op::Ldf => 0,
        _ if o.op.has_result() => u32::from(o.latency),
        _ => 1,
    }
}

/// How many cycles after a word is moved it shows at the earliest. A copy of a result is read from the
/// result port in the same cycle, and a word that comes to an operand port is taken in its own.
fn delay_of(m: &Machine, x: Item) -> u32 {
    let Item::Move { dst, .. } = x else {
        return 1;
    };
    let Dest::Reg { file, .. } = dst else {
        return 0;
    };
    match entry_at(m.files.as_slice(), file) {
        Some(f) if f.width != 32 => 1,
        _ => 0,
    }
}

/// From which cycle on each place can show its word at the earliest, on the way down a list.
#[derive(Drop)]
pub struct Earliest {
    shown: Vec<u32>,
    is_even: bool,
}

impl Earliest {
    /// The table for lists of a machine. It fails only where there is no memory.
    pub fn new(alloc: Global, m: &Machine) -> Result<Self, AllocError> {
        let shown = vec![in alloc; 0; PLACES]?;
        Ok(Earliest {
            shown,
            is_even: is_even(m),
        })
    }

    /// The entry of a place, 0 for none.
    fn at(&self, place: Option<usize>) -> u32 {
        let Some(n) = place else {
            return 0;
        };
        match self.shown.get(n) {
            None => 0,
            Some(cycle) => *cycle,
        }
    }

    /// Sets the entry of a place, which keeps a later cycle where its old word may stay.
    fn show(&mut self, place: Option<usize>, cycle: u32, may_stay: bool) {
        let before = if may_stay { self.at(place) } else { 0 };
        if let Some(n) = place {
            if n < self.shown.len() {
                self.shown[n] = cycle.max(before);
            }
        }
    }

    /// Goes past an item that reads its words in a cycle: the cycle after its last one.
    fn move_in(&mut self, m: &Machine, x: Item, cycle: u32) -> u32 {
        let shown = cycle.saturating_add(delay_of(m, x));
        self.show(written_place(m, x), shown, !is_unguarded(x));
        match x {
            Item::Move {
                dst: Dest::Jump | Dest::Call | Dest::Halt,
                ..
            } => cycle
                .saturating_add(1)
                .saturating_add(u32::from(m.control.delay)),
            _ => cycle.saturating_add(1),
        }
    }

    /// Goes past an item that starts an operation of a unit: the cycle after its last one.
    fn start_in(&mut self, x: Item, unit: u8, o: UnitOp, cycle: u32) -> u32 {
        let start = if o.arity == 2 {
            cycle.max(self.at(Some(operand(unit))))
        } else {
            cycle
        };
        let end = start.saturating_add(passes(o));
        if o.op.has_result() {
            self.show(Some(port(unit)), end, !is_unguarded(x));
        }
        end
    }

    /// Goes past an item: the cycle after its last one.
    fn pass(&mut self, m: &Machine, x: Item) -> u32 {
        let read = self.at(read_place(source_of(x)));
        let cycle = read.max(self.at(guard_place(x)));
        let Item::Move {
            dst: Dest::Trigger { unit, op },
            ..
        } = x
        else {
            return self.move_in(m, x, cycle);
        };
        match operation(m, unit, op) {
            None => self.move_in(m, x, cycle),
            Some(o) => self.start_in(x, unit, o, cycle),
        }
    }

    /// How many cycles a list takes at least, whatever becomes of it; 0 where that is not known, since
    /// an operation takes less time on another unit.
    pub fn cycles(&mut self, m: &Machine, items: &[Item]) -> u32 {
        if !self.is_even {
            return 0;
        }
        for n in 0..self.shown.len() {
            self.shown[n] = 0;
        }
        let mut end = 1u32;
        for x in items {
            end = end.max(self.pass(m, *x));
        }
        end
    }
}
