//! The places that code writes.

ghost use Rattle.std.specs.Prelude.{◌≡◌, true, OnOk, IfOk};
ghost use Rattle.tta_code.specs.Cycle.{long_effects, effects_of};
ghost use Rattle.tta_check.specs.States.{place_of};
ghost use Rattle.tta_check.specs.Locations.{has_location, Keeps, HasWritten, HasAll, Adds, HasCodes};

use crate::location::{Location, location_in, same_location};
use std::alloc::{AllocError, Global};
use tta_arch::Machine;
use tta_code::{Code, Instruction, Long, Move};
use tta_list::entry_at;

/// Whether a list has a location.
fn has_location(locations: &[Location], location: Location) -> bool
    ensures { result ≡ has_location locations.now (place_of location) }
{
    locations.iter().any(|s| same_location(*s, location))
}

/// Puts a location at the end, where the list does not have it.
fn add(locations: &mut Vec<Location>, location: Location) -> Result<(), AllocError>
    ensures kept { OnOk result (Keeps locations.old.items locations.new.items) }
    ensures there { OnOk result (has_location locations.new.items (place_of location) ≡ true) }
{
    if !has_location(locations, location) {
        locations.push(location)?;
    }
    Ok(())
}

/// Puts the place that a slot's move writes at the end, where the list does not have it.
fn add_slot(locations: &mut Vec<Location>, slot: Option<Move>) -> Result<(), AllocError>
    ensures kept { OnOk result (Keeps locations.old.items locations.new.items) }
    ensures there { OnOk result (HasWritten slot locations.new.items) }
{
    let Some(v) = slot else {
        return Ok(());
    };
    match location_in(v.dst) {
        None => Ok(()),
        Some(location) => add(locations, location),
    }
}

/// Puts the places that some moves write at the end.
fn add_moves(locations: &mut Vec<Location>, moves: &[Option<Move>]) -> Result<(), AllocError>
    ensures { OnOk result (Adds HasWritten moves.now locations.old.items locations.new.items) }
{
    for slot in moves {
        add_slot(locations, *slot)?;
    }
    Ok(())
}

/// Puts the place that a long immediate writes at the end.
#[tactic(auto, using(crate::proofs::Added::none_kept, crate::proofs::Added::one_there))]
fn add_long(
    m: &Machine,
    locations: &mut Vec<Location>,
    long: Option<Long>,
) -> Result<(), AllocError>
    ensures kept { OnOk result (Keeps locations.old.items locations.new.items) }
    ensures there { OnOk result (HasAll (long_effects m.now long) locations.new.items) }
{
    let Some(l) = long else {
        return Ok(());
    };
    match entry_at(m.templates.as_slice(), l.template) {
        None => Ok(()),
        Some(t) => {
            let into = Location::Imm {
                unit: t.imm,
                index: t.reg,
            };
            add(locations, into)
        }
    }
}

/// Puts the places that an instruction writes at the end.
fn add_instruction(
    m: &Machine,
    locations: &mut Vec<Location>,
    i: &Instruction,
) -> Result<(), AllocError>
    ensures kept { OnOk result (Keeps locations.old.items locations.new.items) }
    ensures there { OnOk result (HasAll (effects_of m.now i.now) locations.new.items) }
{
    add_moves(locations, i.moves.as_slice())?;
    add_long(m, locations, i.long)?;
    Ok(())
}

/// The places that code writes.
pub fn locations_of(alloc: Global, m: &Machine, code: &Code) -> Result<Vec<Location>, AllocError>
    ensures { IfOk result (λ v. HasCodes m.now code.now.words v.items) }
{
    let mut locations = Vec::new(alloc);
    for i in code.words.as_slice() {
        add_instruction(m, &mut locations, i)?;
    }
    Ok(locations)
}
