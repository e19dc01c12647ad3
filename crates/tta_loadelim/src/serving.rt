//! Reads that another source with the same word serves, with copies that later reads take.

ghost use Rattle.std.specs.Prelude.{◌≡◌, List, true, IfOk, OnOk, IfSome};
ghost use Rattle.tta_arch.specs.declared.ends.Source.{Source};
ghost use Rattle.tta_moves.specs.declared.items.Item.{Item};
ghost use Rattle.tta_moves.specs.declared.items.ItemSource.TheVariants.{Port};
ghost use Rattle.tta_moves.specs.Touches.{source_of};
ghost use Rattle.tta_optim.specs.Passes.{with_source};
ghost use Rattle.tta_loadelim.specs.AvailableSlots as spec;
ghost use Rattle.tta_loadelim.specs.AvailableSlots.{have_one, IsServed};
ghost use Rattle.tta_loadelim.specs.Facts.{Knows, GoesOn};
ghost use Rattle.tta_loadelim.specs.Reworked.{AreWorked};

use crate::available_slots::AvailableSlots;
use crate::copying::{Plan, chosen, copy_of, kept_past, nothing_kept};
use std::alloc::{AllocError, Global};
use tta_arch::{Dest, Source};
use tta_connect::TargetMachine;
use tta_moves::{Item, ItemSource};

/// Whether a source is a result port or the hub's register for ways, which loads are read from.
fn passes(hub: u8, src: Source) -> bool {
    match src {
        Source::Shown { .. } => true,
        Source::Reg { file, index } => file == hub && index == 0,
        _ => false,
    }
}

/// Another source with the word that an item takes from a port or by the hub, if a bus joins it to
/// the item's destination.
pub fn alternative(
    on: &TargetMachine<'_>,
    hub: u8,
    known: &AvailableSlots,
    x: Item,
) -> Option<Source>
    ensures { let m = on.now.machine.now in (before : List Item) → Knows m before known.now
        → IfSome result (λ b. (a : Source) × (source_of x ≡ Port a)
        × (have_one (spec.known m before) a b ≡ true)) }
{
    let Item::Move { guard, src, dst } = x else {
        return None;
    };
    let ItemSource::Port(from) = src else {
        return None;
    };
    if passes(hub, from) {
        known.other(on, from, guard, dst)
    } else {
        None
    }
}

/// An item that reads another source.
fn with_source(x: Item, other: Source) -> Item
    ensures { result ≡ with_source x (Port other) }
{
    match x {
        Item::Move { guard, dst, .. } => Item::Move {
            guard,
            src: ItemSource::Port(other),
            dst,
        },
        Item::Long { .. } => x,
    }
}

/// An item that reads another source with the same word, where there is one.
fn served(on: &TargetMachine<'_>, hub: u8, known: &AvailableSlots, x: Item) -> Item
    ensures { let m = on.now.machine.now in (before : List Item) → Knows m before known.now
        → IsServed m before x result }
{
    match alternative(on, hub, known, x) {
        None => x,
        Some(other) => with_source(x, other),
    }
}

/// Whether an item moves into one of some registers.
fn is_into(fresh: &[(u8, u8)], x: Item) -> bool {
    let Item::Move { dst, .. } = x else {
        return false;
    };
    let Dest::Reg { file, index } = dst else {
        return false;
    };
    fresh.iter().any(|r| r.0 == file && r.1 == index)
}

/// An item that reads another source with the same word, where there is one and the item does not
/// move into one of some registers.
fn served_but(plan: &Plan<'_>, known: &AvailableSlots, fresh: &[(u8, u8)], x: Item) -> Item
    ensures { let m = plan.now.on.now.machine.now in (before : List Item)
        → Knows m before known.now → IsServed m before x result }
{
    if is_into(fresh, x) {
        return x;
    }
    served(plan.on, plan.hub, known, x)
}

/// Goes past an item, which is served. It fails only where there is no memory.
fn push_served(
    out: &mut Vec<Item>,
    known: &mut AvailableSlots,
    plan: &Plan<'_>,
    fresh: &[(u8, u8)],
    x: Item,
) -> Result<(), AllocError>
    ensures { let m = plan.now.on.now.machine.now in OnOk result (
        GoesOn m known.old out.old.items x known.new out.new.items) }
{
    let y = served_but(plan, known, fresh, x);
    out.push(y)?;
    known.pass(plan.on.machine, x);
    Ok(())
}

/// The items, some with a copy of their word into one of some registers before them, each reading an
/// older source with the same word, where there is one, but for those that move into these
/// registers. The only error is out of memory.
pub fn serve(
    alloc: Global,
    plan: &Plan<'_>,
    fresh: &[(u8, u8)],
    items: &[Item],
) -> Result<Vec<Item>, AllocError>
    ensures { let m = plan.now.on.now.machine.now in
        IfOk result (λ v. AreWorked m fresh.now items.now v.items) }
{
    let mut known = AvailableSlots::new();
    let mut kept = nothing_kept(fresh);
    let mut out = Vec::with_capacity(alloc, items.len())?;
    for (i, x) in items.iter().enumerate() {
        kept = kept_past(kept, plan, i);
        let Some(r) = chosen(plan, &known, &mut kept, fresh, i, *x) else {
            push_served(&mut out, &mut known, plan, fresh, *x)?;
            continue;
        };
        push_served(&mut out, &mut known, plan, fresh, copy_of(*x, r))?;
        push_served(&mut out, &mut known, plan, fresh, *x)?;
    }
    Ok(out)
}
