//! The lists of each block, from the selected one to the one that is placed.

ghost use Rattle.std.specs.Prelude.{◌≡◌, ◌++◌, [], OnOk};
ghost use Rattle.std.specs.Option.{option_map_or};
ghost use Rattle.tta_ops.specs.Set.{stated};
ghost use Rattle.tta_stages.specs.ListText.{list_text, order_name, ordered_text, passed_text};
ghost use Rattle.tta_stages.specs.ListText.{other_text, round_text, rounds_text, start_text};
ghost use Rattle.tta_stages.specs.ListText.{trail_text, live_text};
ghost use Rattle.tta_stages.specs.ListText.{trail_at, block_lists_text, lists_text};

use crate::text::items::push_items;
use crate::text::named::{Of, push_named};
use crate::text::words::{push_count, push_pairs};
use std::alloc::AllocError;
use tta_build::{Derivation, Order, Ordered, Round, Rounds, Start};
use tta_moves::BlockList;
use tta_ops::UnitSet;
use tta_optim::Passed;

/// Puts a list of a block, after what the block stands for and what the list is.
#[tactic(auto, unfolding(crate::specs::ListText::list_text))]
fn push_list(
    out: &mut Vec<u8>,
    units: &UnitSet,
    of: &Of<'_>,
    k: usize,
    what: &[u8],
    list: &BlockList,
) -> Result<(), AllocError>
    ensures { OnOk result (out.new.items ≡ out.old.items
        ++ list_text (stated unit_meaning units.now) of.now.m.now of.now.p.now of.now.parts.now
        k what.now list.now) }
{
    out.extend_from_slice(b"list ")?;
    push_named(out, of, k)?;
    out.extend_from_slice(what)?;
    push_count(out, b" items ", list.items.len() as u128)?;
    out.extend_from_slice(b"\n")?;
    push_items(out, units, of.m, list.items.as_slice())
}

/// What a list in another order is.
fn order_name(by: Order) -> &'static [u8]
    ensures { result.now ≡ order_name by }
{
    match by {
        Order::Items => b" ordered by items",
        Order::Latest => b" ordered by latest cycles",
        Order::Groups => b" ordered by groups",
    }
}

/// Puts a list in another order, if there is one.
fn push_ordered(
    out: &mut Vec<u8>,
    units: &UnitSet,
    of: &Of<'_>,
    k: usize,
    ordered: &Option<Ordered>,
) -> Result<(), AllocError>
    ensures { OnOk result (out.new.items ≡ out.old.items
        ++ ordered_text (stated unit_meaning units.now) of.now.m.now of.now.p.now of.now.parts.now
        k ordered.now) }
{
    match ordered {
        Some(o) => push_list(out, units, of, k, order_name(o.by), &o.list),
        None => Ok(()),
    }
}

/// Puts a list after each of the passes.
#[tactic(auto, unfolding(crate::specs::ListText::passed_text))]
fn push_passed(
    out: &mut Vec<u8>,
    units: &UnitSet,
    of: &Of<'_>,
    k: usize,
    passed: &Passed,
) -> Result<(), AllocError>
    ensures { OnOk result (out.new.items ≡ out.old.items
        ++ passed_text (stated unit_meaning units.now) of.now.m.now of.now.p.now of.now.parts.now
        k passed.now) }
{
    push_list(out, units, of, k, b" after bypass", &passed.bypassed)?;
    push_list(out, units, of, k, b" after share", &passed.shared)?;
    push_list(out, units, of, k, b" after dead", &passed.lively)
}

/// Puts a list that takes another's place, if there is one.
fn push_other(
    out: &mut Vec<u8>,
    units: &UnitSet,
    of: &Of<'_>,
    k: usize,
    what: &[u8],
    other: &Option<BlockList>,
) -> Result<(), AllocError>
    ensures { OnOk result (out.new.items ≡ out.old.items
        ++ other_text (stated unit_meaning units.now) of.now.m.now of.now.p.now of.now.parts.now
        k what.now other.now) }
{
    match other {
        Some(list) => push_list(out, units, of, k, what, list),
        None => Ok(()),
    }
}

/// Puts a round.
#[tactic(auto, unfolding(crate::specs::ListText::round_text))]
fn push_round(
    out: &mut Vec<u8>,
    units: &UnitSet,
    of: &Of<'_>,
    k: usize,
    round: &Round,
) -> Result<(), AllocError>
    ensures { OnOk result (out.new.items ≡ out.old.items
        ++ round_text (stated unit_meaning units.now) of.now.m.now of.now.p.now of.now.parts.now
        k round.now) }
{
    push_ordered(out, units, of, k, &round.ordered)?;
    push_other(out, units, of, k, b" bound to units", &round.bound)?;
    push_passed(out, units, of, k, &round.passed)
}

/// Puts a second round, if there is one.
fn push_second(
    out: &mut Vec<u8>,
    units: &UnitSet,
    of: &Of<'_>,
    k: usize,
    second: &Option<Round>,
) -> Result<(), AllocError>
    ensures { OnOk result (out.new.items ≡ out.old.items
        ++ option_map_or (round_text (stated unit_meaning units.now) of.now.m.now of.now.p.now
        of.now.parts.now k) second.now []) }
{
    match second {
        Some(round) => push_round(out, units, of, k, round),
        None => Ok(()),
    }
}

/// Puts one round or two.
#[tactic(auto, unfolding(crate::specs::ListText::rounds_text))]
fn push_rounds(
    out: &mut Vec<u8>,
    units: &UnitSet,
    of: &Of<'_>,
    k: usize,
    rounds: &Rounds,
) -> Result<(), AllocError>
    ensures { OnOk result (out.new.items ≡ out.old.items
        ++ rounds_text (stated unit_meaning units.now) of.now.m.now of.now.p.now of.now.parts.now
        k rounds.now) }
{
    push_round(out, units, of, k, &rounds.first)?;
    push_second(out, units, of, k, &rounds.second)
}

/// Puts the lists before the rounds.
#[tactic(auto, unfolding(crate::specs::ListText::start_text))]
fn push_start(
    out: &mut Vec<u8>,
    units: &UnitSet,
    of: &Of<'_>,
    k: usize,
    start: &Start,
) -> Result<(), AllocError>
    ensures { OnOk result (out.new.items ≡ out.old.items
        ++ start_text (stated unit_meaning units.now) of.now.m.now of.now.p.now of.now.parts.now
        k start.now) }
{
    push_other(out, units, of, k, b" served", &start.served)?;
    push_other(out, units, of, k, b" bound to units", &start.bound)
}

/// Puts the lists along a trail.
#[tactic(auto, unfolding(crate::specs::ListText::trail_text))]
fn push_trail(
    out: &mut Vec<u8>,
    units: &UnitSet,
    of: &Of<'_>,
    k: usize,
    trail: &Derivation,
) -> Result<(), AllocError>
    ensures { OnOk result (out.new.items ≡ out.old.items
        ++ trail_text (stated unit_meaning units.now) of.now.m.now of.now.p.now of.now.parts.now
        k trail.now) }
{
    push_start(out, units, of, k, &trail.start)?;
    push_rounds(out, units, of, k, &trail.rounds)
}

/// Puts the registers that are read after a list.
#[tactic(auto, unfolding(crate::specs::ListText::live_text))]
fn push_live(out: &mut Vec<u8>, of: &Of<'_>, list: &BlockList) -> Result<(), AllocError>
    ensures { OnOk result (out.new.items ≡ out.old.items ++ live_text of.now.m.now list.now) }
{
    out.extend_from_slice(b" live after :")?;
    push_pairs(out, of.m, list.live_out.as_slice())?;
    out.extend_from_slice(b"\n")
}

/// Puts the lists along the trail of the block, if it has one.
fn push_trail_at(
    out: &mut Vec<u8>,
    units: &UnitSet,
    of: &Of<'_>,
    k: usize,
    trails: &[Derivation],
) -> Result<(), AllocError>
    ensures { OnOk result (out.new.items ≡ out.old.items
        ++ trail_at (stated unit_meaning units.now) of.now.m.now of.now.p.now of.now.parts.now
        k trails.now) }
{
    match trails.get(k) {
        Some(trail) => push_trail(out, units, of, k, trail),
        None => Ok(()),
    }
}

/// Puts the lists of a block, from the selected one.
#[tactic(auto, unfolding(crate::specs::ListText::block_lists_text))]
fn push_block_lists(
    out: &mut Vec<u8>,
    units: &UnitSet,
    of: &Of<'_>,
    k: usize,
    trails: &[Derivation],
    list: &BlockList,
) -> Result<(), AllocError>
    ensures { OnOk result (out.new.items ≡ out.old.items
        ++ block_lists_text (stated unit_meaning units.now) of.now.m.now of.now.p.now
        of.now.parts.now k trails.now list.now) }
{
    push_list(out, units, of, k, b" selected", list)?;
    push_live(out, of, list)?;
    push_trail_at(out, units, of, k, trails)
}

/// Puts the lists of each block.
pub fn push_lists(
    out: &mut Vec<u8>,
    units: &UnitSet,
    of: &Of<'_>,
    trails: &[Derivation],
    lists: &[BlockList],
) -> Result<(), AllocError>
    ensures { OnOk result (out.new.items ≡ out.old.items
        ++ lists_text (stated unit_meaning units.now) of.now.m.now of.now.p.now of.now.parts.now
        trails.now lists.now) }
{
    for (k, list) in lists.iter().enumerate() {
        push_block_lists(out, units, of, k, trails, list)?;
    }
    Ok(())
}
