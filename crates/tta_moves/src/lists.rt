//! Which lists a machine can carry out.

ghost use Rattle.std.specs.Prelude.{◌≡◌};
ghost use Rattle.std.specs.List.{list_all, list_any};
ghost use Rattle.tta_arch.specs.Rules.{IsMachine};
ghost use Rattle.tta_connect.specs.Net.{IsNetOf};
ghost use Rattle.tta_moves.specs.Slots.{carried, joined, fills, has_slot, control_is_last, is_list};

use crate::items::{BlockList, Item, ItemSource};
use crate::parts::is_control;
use tta_arch::{Dest, GuardRef, Machine, Source, Template};
use tta_connect::{Net, TargetMachine};

/// How many items a list has at most.
const MAX_ITEMS: usize = 1 << 24;

/// The greatest address of a machine.
fn greatest_address(m: &Machine) -> u32
    ensures value { Source.Value result ≡ carried m.now (ItemSource.Address 0) }
    ensures rules { IsMachine m.now }
{
    (1 << m.control.address) - 1
}

/// A source as a bus has to carry it: an address as the greatest that there is.
pub fn carried(m: &Machine, src: ItemSource) -> Source
    ensures value { result ≡ carried m.now src }
    ensures rules { IsMachine m.now }
{
    let greatest = greatest_address(m);
    match src {
        ItemSource::Port(port) => port,
        ItemSource::Address(_) => Source::Value(greatest),
    }
}

/// Whether some bus joins the ends of a move and has its guard. For an address its field has to
/// hold every address of the machine.
pub fn is_joined(
    m: &Machine,
    net: &Net,
    src: ItemSource,
    dst: Dest,
    guard: Option<GuardRef>,
) -> bool
    requires { IsNetOf net.now m.now }
    ensures { result ≡ joined m.now src dst guard }
{
    let from = carried(m, src);
    match net.bus_for(m, &from, &dst, &guard) {
        Some(_) => true,
        None => false,
    }
}

/// Whether a template fills this register of an immediate unit.
fn fills(t: &Template, imm: u8, reg: u8) -> bool
    ensures { result ≡ fills imm reg t.now }
{
    t.imm == imm && t.reg == reg
}

/// Whether some template writes an immediate register.
fn is_filled(m: &Machine, imm: u8, reg: u8) -> bool
    ensures { result ≡ list_any (fills imm reg) m.now.templates }
{
    m.templates.as_slice().iter().any(|t| fills(t, imm, reg))
}

/// Whether an item has a bus or a template where it is alone in its cycle.
fn has_slot(on: &TargetMachine<'_>, x: Item) -> bool
    ensures { result ≡ has_slot on.now.machine.now x }
{
    match x {
        Item::Move { guard, src, dst } => is_joined(on.machine, on.net, src, dst, guard),
        Item::Long { imm, reg, .. } => is_filled(on.machine, imm, reg),
    }
}

/// Whether each item has a bus or a template.
fn have_slots(on: &TargetMachine<'_>, items: &[Item]) -> bool
    ensures { result ≡ list_all (has_slot on.now.machine.now) items.now }
{
    items.iter().all(|x| has_slot(on, *x))
}

/// Whether no item but the last one is a jump, a call or a halt.
fn control_is_last(items: &[Item]) -> bool
    ensures { result ≡ control_is_last items.now }
{
    for (i, x) in items.iter().enumerate() {
        if is_control(*x) && i + 1 != items.len() {
            return false;
        }
    }
    true
}

/// Whether a machine can carry out a list: each item alone has a bus or a template, control is
/// only last, and there are at most 2^24 items. It takes no memory.
pub fn is_list(m: &Machine, net: &Net, b: &BlockList) -> bool
    requires { IsNetOf net.now m.now }
    ensures { result ≡ is_list m.now b.now.items }
{
    let items = b.items.as_slice();
    if items.len() > MAX_ITEMS {
        return false;
    }
    have_slots(&TargetMachine { machine: m, net }, items) && control_is_last(items)
}
