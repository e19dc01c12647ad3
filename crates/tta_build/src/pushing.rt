//! Trails of a block, one by one.

ghost use Rattle.std.specs.Prelude.{◌≡◌, IfOk, OnOk, IfSome, unwrap_or};
ghost use Rattle.tta_arch.specs.Machine.{Machine};
ghost use Rattle.tta_moves.specs.declared.items.BlockList.{BlockList};
ghost use Rattle.tta_optim.specs.Kept.{IsEquivalent};
ghost use Rattle.tta_build.specs.Derivation.{IsStart, start_of, AreRounds, AreTrailsOf};
ghost use Rattle.tta_build.specs.Placing.{AreChoices, IsBound};

use crate::candidates::{Bound, Choices};
use crate::keeping::beside;
use crate::trail::{Derivation, Rounds, Start, copied};
use std::alloc::{AllocError, Global};
use tta_moves::BlockList;

/// A copy of a list, if there is one. It fails only where there is no memory.
fn copied_some(alloc: Global, b: &Option<BlockList>) -> Result<Option<BlockList>, AllocError>
    ensures { IfOk result (λ r. r ≡ b.now) }
{
    match b {
        Some(list) => {
            let copy = copied(alloc, list)?;
            Ok(Some(copy))
        }
        None => Ok(None),
    }
}

/// A copy of a start. It fails only where there is no memory.
fn copied_start(alloc: Global, start: &Start) -> Result<Start, AllocError>
    ensures { IfOk result (λ r. r ≡ start.now) }
{
    let served = copied_some(alloc, &start.served)?;
    let bound = copied_some(alloc, &start.bound)?;
    Ok(Start { served, bound })
}

/// One trail more, with these rounds from this start.
pub fn push_one(lists: &mut Vec<Derivation>, start: Start, rounds: Rounds) -> Result<(), AllocError>
    ensures { OnOk result ((m : Machine) (b : BlockList) → IsStart m b start
        → AreRounds m (start_of b start) rounds
        → AreTrailsOf m b lists.old.items → AreTrailsOf m b lists.new.items) }
{
    lists.push(Derivation { start, rounds })?;
    Ok(())
}

/// One trail more from the selected list, if there are rounds.
pub fn push_some(lists: &mut Vec<Derivation>, rounds: Option<Rounds>) -> Result<(), AllocError>
    ensures { OnOk result ((m : Machine) (b : BlockList) → IfSome rounds (λ r. AreRounds m b r)
        → AreTrailsOf m b lists.old.items → AreTrailsOf m b lists.new.items) }
{
    match rounds {
        Some(rounds) => {
            let start = Start {
                served: None,
                bound: None,
            };
            push_one(lists, start, rounds)?;
            Ok(())
        }
        None => Ok(()),
    }
}

/// One trail more from the selected list with its loads served, if there are rounds.
pub fn push_served(
    alloc: Global,
    lists: &mut Vec<Derivation>,
    served: &BlockList,
    rounds: Option<Rounds>,
) -> Result<(), AllocError>
    ensures { OnOk result ((m : Machine) (b : BlockList) → IsEquivalent m b served.now
        → IfSome rounds (λ r. AreRounds m served.now r)
        → AreTrailsOf m b lists.old.items → AreTrailsOf m b lists.new.items) }
{
    match rounds {
        Some(rounds) => {
            let copy = copied(alloc, served);
            let (rounds, copy) = beside(rounds, copy)?;
            let start = Start {
                served: Some(copy),
                bound: None,
            };
            push_one(lists, start, rounds)?;
            Ok(())
        }
        None => Ok(()),
    }
}

/// Two trails more, with these rounds from one start.
fn push_both(
    alloc: Global,
    lists: &mut Vec<Derivation>,
    start: Start,
    first: Rounds,
    second: Rounds,
) -> Result<(), AllocError>
    ensures { OnOk result ((m : Machine) (b : BlockList) → IsStart m b start
        → AreRounds m (start_of b start) first → AreRounds m (start_of b start) second
        → AreTrailsOf m b lists.old.items → AreTrailsOf m b lists.new.items) }
{
    let copy = copied_start(alloc, &start);
    let ((start, first, second), copy) = beside((start, first, second), copy)?;
    let pushed = push_one(lists, copy, first);
    let ((start, second), _) = beside((start, second), pushed)?;
    push_one(lists, start, second)?;
    Ok(())
}

/// The trails of these rounds more, from one start.
fn push_choices(
    alloc: Global,
    lists: &mut Vec<Derivation>,
    start: Start,
    choices: Choices,
) -> Result<(), AllocError>
    ensures { OnOk result ((m : Machine) (b : BlockList) → IsStart m b start
        → AreChoices m (start_of b start) choices
        → AreTrailsOf m b lists.old.items → AreTrailsOf m b lists.new.items) }
{
    let Choices { best, by_items } = choices;
    match by_items {
        Some(more) => {
            push_both(alloc, lists, start, best, more)?;
            Ok(())
        }
        None => {
            push_one(lists, start, best)?;
            Ok(())
        }
    }
}

/// The trails more of a list with its operations on other units, if there is one: of that in which
/// loads are served, or else of the selected one.
pub fn push_bound(
    alloc: Global,
    lists: &mut Vec<Derivation>,
    served: Option<BlockList>,
    bound: Option<Bound>,
) -> Result<(), AllocError>
    ensures { OnOk result ((m : Machine) (b : BlockList) → IfSome served (λ l. IsEquivalent m b l)
        → IfSome bound (λ x. IsBound m (unwrap_or served b) x)
        → AreTrailsOf m b lists.old.items → AreTrailsOf m b lists.new.items) }
{
    match bound {
        Some(Bound { list, choices }) => {
            let start = Start {
                served,
                bound: Some(list),
            };
            push_choices(alloc, lists, start, choices)?;
            Ok(())
        }
        None => Ok(()),
    }
}
