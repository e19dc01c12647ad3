//! Values that a guard lets through.

ghost use Rattle.std.specs.Prelude.{◌≡◌, true, None, Some, ◌++◌, IfOk, ◌<◌};
ghost use Rattle.tta_select.specs.Select.{brings_old, merged, value, reaches, choose};
ghost use Rattle.std.specs.Prelude.{◌||◌};
ghost use Rattle.tta_moves.specs.Slots.{joined};
ghost use Rattle.tta_select.specs.Relation.{is_place_of, is_src_of};

use crate::operands::{fetch, home_at, home_pair, shown_at, value};
use crate::operating::{MERGING, put_merged};
use crate::putting::{PASSING, from_hub, hub_at, long_for, put_move};
use crate::target::SelectionTarget;
use std::alloc::AllocError;
use tta_arch::{Dest, GuardRef, Source};
use tta_lir::{Place, RSrc};
use tta_list::Items;
use tta_moves::{Item, ItemSource, is_joined};

/// Puts the way of a place's own word to the hub's register for merging at the end.
fn put_old(items: &mut Items<Item>, on: &SelectionTarget<'_>, d: Place) -> Result<(), AllocError>
    requires inside { is_place_of on.now.machine.now on.now.choice.now d ≡ true }
    ensures { IfOk result (λ x. items.new ≡ items.old
        ++ brings_old on.now.machine.now on.now.choice.now d) }
{
    match d {
        Place::Reg(k) => {
            let (file, index) = home_pair(on.choice, k);
            let src = ItemSource::Port(Source::Reg { file, index });
            put_move(items, None, src, hub_at(on.choice, MERGING))
        }
        Place::Frame(slot) => fetch(items, on, None, slot, hub_at(on.choice, MERGING)),
    }
}

/// Whether a bus joins two ends under a guard, or the second end and the hub's register.
fn joined_or_hub(
    on: &SelectionTarget<'_>,
    guard: Option<GuardRef>,
    src: ItemSource,
    dst: Dest,
) -> bool
    ensures { result ≡ (joined on.now.machine.now src dst guard
        || joined on.now.machine.now (ItemSource.Port (Source.Reg on.now.choice.now.hub 0))
        dst guard) }
{
    is_joined(on.machine, on.net, src, dst, guard)
        || is_joined(on.machine, on.net, from_hub(on.choice, PASSING), dst, guard)
}

/// Whether an operand has a way to a place.
fn reaches(on: &SelectionTarget<'_>, guard: Option<GuardRef>, o: RSrc, dst: Dest) -> bool
    requires inside { is_src_of on.now.machine.now on.now.choice.now o ≡ true }
    ensures { result ≡ reaches on.now.machine.now on.now.choice.now guard o dst }
{
    match o {
        RSrc::Word(w) => {
            let src = ItemSource::Port(Source::Value(w));
            joined_or_hub(on, guard, src, dst) || long_for(on, dst, guard).is_some()
        }
        RSrc::At(Place::Reg(k)) => {
            let (file, index) = home_pair(on.choice, k);
            let src = ItemSource::Port(Source::Reg { file, index });
            joined_or_hub(on, guard, src, dst)
        }
        RSrc::At(Place::Frame(_)) => joined_or_hub(on, guard, shown_at(on.ldf), dst),
    }
}

/// Puts the merge of a place's own word and another in the hub at the end.
fn put_merging(
    items: &mut Items<Item>,
    on: &SelectionTarget<'_>,
    g: GuardRef,
    s: RSrc,
    d: Place,
) -> Result<(), AllocError>
    requires source { is_src_of on.now.machine.now on.now.choice.now s ≡ true }
    requires place { is_place_of on.now.machine.now on.now.choice.now d ≡ true }
    ensures { IfOk result (λ x. items.new ≡ items.old
        ++ (brings_old on.now.machine.now on.now.choice.now d
        ++ (value on.now.machine.now on.now.choice.now (Some g) s
        (Dest.Reg on.now.choice.now.hub 1)
        ++ merged on.now.machine.now on.now.choice.now d))) }
{
    put_old(items, on, d)?;
    value(items, on, Some(g), s, hub_at(on.choice, MERGING))?;
    put_merged(items, on, d)
}

/// Puts the way of a word to a place at the end, where a guard lets it.
pub fn choose(
    items: &mut Items<Item>,
    on: &SelectionTarget<'_>,
    g: GuardRef,
    s: RSrc,
    d: Place,
) -> Result<(), AllocError>
    requires source { is_src_of on.now.machine.now on.now.choice.now s ≡ true }
    requires place { is_place_of on.now.machine.now on.now.choice.now d ≡ true }
    ensures { IfOk result (λ x. items.new ≡ items.old
        ++ choose on.now.machine.now on.now.choice.now g s d) }
{
    match d {
        Place::Frame(_) => put_merging(items, on, g, s, d),
        Place::Reg(k) => {
            let dst = home_at(on.choice, k);
            if reaches(on, Some(g), s, dst) {
                value(items, on, Some(g), s, dst)
            } else {
                put_merging(items, on, g, s, d)
            }
        }
    }
}
