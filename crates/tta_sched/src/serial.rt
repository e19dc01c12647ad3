//! Serial placement: one item in a cycle.

ghost use Rattle.std.specs.Prelude.{◌≡◌, ◌≤◌, true, IfOk};
ghost use Rattle.tta_arch.specs.Rules.{IsMachine};
ghost use Rattle.tta_connect.specs.Net.{IsNetOf};
ghost use Rattle.tta_moves.specs.Slots.{is_list};
ghost use Rattle.tta_moves.specs.Bounds.{Respects};
ghost use Rattle.tta_sched.specs.Serial.{serial_length, IsSerial};
ghost use Rattle.tta_sched.specs.Room.{HasRoom};

use crate::alone::slot_alone;
use std::alloc::{AllocError, Global};
use tta_arch::Machine;
use tta_connect::{Net, TargetMachine};
use tta_depend::lasts;
use tta_list::Items;
use tta_moves::parts::is_control;
use tta_moves::{BlockList, Item, Placed, PlacedItem};

/// How many cycles a block takes whose items are over in so many: a last control item adds its delay.
fn block_length(m: &Machine, items: &[Item], end: u32) -> u32
    requires { end ≤ 4294967200 }
    ensures value { result ≡ serial_length m.now items.now end }
    ensures rules { IsMachine m.now }
{
    let delay = u32::from(m.control.delay);
    match items.last() {
        Some(x) if is_control(*x) => end + delay,
        _ => end.max(1),
    }
}

/// Places the items of a block in their order, one in a cycle, each in the first cycle in which all
/// items before it are over, on the least slot that carries it. The only error is out of memory.
pub fn place_serial(
    alloc: Global,
    b: &BlockList,
    m: &Machine,
    net: &Net,
) -> Result<Placed, AllocError>
    requires net { IsNetOf net.now m.now }
    requires list { is_list m.now b.now.items ≡ true }
    ensures serial { IfOk result (λ p. IsSerial m.now b.now.items p) }
    ensures respects { IfOk result (λ p. Respects m.now b.now.items p) }
    ensures room { IfOk result (λ p. HasRoom m.now b.now.items p) }
{
    let on = TargetMachine { machine: m, net };
    let mut placed = Items::new(alloc);
    let mut cycle = 0;
    for x in b.items.as_slice() {
        let slot = slot_alone(&on, *x);
        placed.push(PlacedItem {
            item: *x,
            cycle,
            slot,
        })?;
        cycle += lasts(m, *x);
    }
    let length = block_length(m, b.items.as_slice(), cycle);
    Ok(Placed {
        items: placed,
        length,
    })
}
