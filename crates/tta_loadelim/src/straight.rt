//! Whether a list is straight.

ghost use Rattle.std.specs.Prelude.{◌≡◌, true, Some, IfOk};
ghost use Rattle.tta_moves.specs.Slots.{is_list};
ghost use Rattle.tta_moves.specs.Forms.{is_passing, is_port_source, is_straight};
ghost use Rattle.tta_loadelim.specs.Trails.{longer, trail_in, next_trail, trails_after};
ghost use Rattle.tta_loadelim.specs.Trails.{could_take, may_detour};

use std::alloc::{AllocError, Global};
use tta_arch::{Machine, Source};
use tta_connect::TargetMachine;
use tta_moves::numbers::{PLACES, read_place, written_place};
use tta_moves::parts::{is_unguarded, source_of};
use tta_moves::{Item, ItemSource, is_joined};

/// The sources from which the word of a place has come, the newest first.
#[derive(Clone, Copy)]
pub struct Trail {
    pub one: Option<ItemSource>,
    pub two: Option<ItemSource>,
    /// Whether there are more than these two.
    pub is_long: bool,
}

/// A trail without a source.
const EMPTY: Trail = Trail {
    one: None,
    two: None,
    is_long: false,
};

/// Whether a source is a scratch register or an immediate register.
fn is_passing(hub: u8, src: ItemSource) -> bool
    ensures { result ≡ is_passing (Some hub) src }
{
    let ItemSource::Port(from) = src else {
        return false;
    };
    match from {
        Source::Reg { file, index } => hub == file && index < 3,
        Source::Imm { .. } => true,
        Source::Shown { .. } | Source::Ra | Source::Value(_) => false,
    }
}

/// Whether a source is a result port.
fn is_port_source(src: ItemSource) -> bool
    ensures { result ≡ is_port_source src }
{
    match src {
        ItemSource::Port(from) => matches!(from, Source::Shown { .. }),
        ItemSource::Address(_) => false,
    }
}

/// A trail with a source before it.
fn longer(src: ItemSource, t: Trail) -> Trail
    ensures { result ≡ longer src t }
{
    Trail {
        one: Some(src),
        two: t.one,
        is_long: t.is_long || t.two.is_some(),
    }
}

/// The trail of the place of a source.
fn trail_in(trails: &[Trail], src: ItemSource) -> Trail
    ensures { result ≡ trail_in trails.now src }
{
    match read_place(src) {
        None => EMPTY,
        Some(n) => match trails.get(n) {
            None => EMPTY,
            Some(t) => *t,
        },
    }
}

/// The trail of the place that an item writes.
fn next_trail(hub: u8, trails: &[Trail], x: Item) -> Trail
    ensures { result ≡ next_trail hub trails.now x }
{
    if !is_unguarded(x) {
        return EMPTY;
    }
    let src = source_of(x);
    if is_passing(hub, src) {
        longer(src, trail_in(trails, src))
    } else {
        longer(src, EMPTY)
    }
}

/// Goes past an item.
fn pass(m: &Machine, hub: u8, trails: &mut Vec<Trail>, x: Item)
    ensures { trails.new.items ≡ trails_after m.now hub trails.old.items x }
{
    let t = next_trail(hub, trails.as_slice(), x);
    if let Some(n) = written_place(m, x) {
        if n < trails.len() {
            trails[n] = t;
        }
    }
}

/// Whether a move could take another source than a result port in place of its own.
fn could_take(on: &TargetMachine<'_>, x: Item, other: Option<ItemSource>) -> bool
    ensures { result ≡ could_take on.now.machine.now x other }
{
    let Some(src) = other else {
        return false;
    };
    match x {
        Item::Move { guard, dst, .. } => {
            !is_port_source(src) && is_joined(on.machine, on.net, src, dst, guard)
        }
        Item::Long { .. } => false,
    }
}

/// Whether a move may be a detour.
fn may_detour(on: &TargetMachine<'_>, hub: u8, trails: &[Trail], x: Item) -> bool
    ensures { result ≡ may_detour on.now.machine.now hub trails.now x }
{
    let src = source_of(x);
    if !is_passing(hub, src) {
        return false;
    }
    let t = trail_in(trails, src);
    t.is_long || (could_take(on, x, t.one) || could_take(on, x, t.two))
}

/// Whether it is known that a list is straight. The only error is out of memory.
pub fn is_straight(
    alloc: Global,
    on: &TargetMachine<'_>,
    hub: u8,
    items: &[Item],
) -> Result<bool, AllocError>
    requires { is_list on.now.machine.now items.now ≡ true }
    ensures { IfOk result (λ is. is ≡ true
        → is_straight on.now.machine.now (Some hub) items.now ≡ true) }
{
    on.machine.rules();
    let mut trails = vec![in alloc; EMPTY; PLACES]?;
    for x in items {
        if may_detour(on, hub, trails.as_slice(), *x) {
            return Ok(false);
        }
        pass(on.machine, hub, &mut trails, *x);
    }
    Ok(true)
}
