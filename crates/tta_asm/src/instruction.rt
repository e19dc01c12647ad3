//! The instruction of slots and a long immediate.

ghost use Rattle.std.specs.Prelude.{◌≡◌, ◌^◌, ◌≤◌, ◌==◌, IfOk, Ok, length, map, nat_le, not};
ghost use Rattle.std.specs.Prelude.{option_map, true};
ghost use Rattle.std.specs.Option.{option_map_or};
ghost use Rattle.tta_parse.specs.Steps.{refuse_if};
ghost use Rattle.tta_ops.specs.Set.{stated};
ghost use Rattle.tta_code.specs.Legal.{is_legal, is_long};
ghost use Rattle.tta_asm.specs.declared.refusal.AsmRefusal.TheVariants.{Illegal, Range, Slots};
ghost use Rattle.tta_asm.specs.Assembly.{at_line, moves_of, longs_of, instruction_of};
ghost use Rattle.tta_asm.specs.Refusals.{Answers};
ghost use Rattle.tta_asm.specs.Resolving.{action_of};
ghost use Rattle.tta_asm.specs.Seen.{move_seen, slot_seen, long_seen};

use crate::forms::{LongForm, SlotForm};
use crate::labels::Label;
use crate::refusal::{AsmError, AsmRefusal};
use crate::resolving::{action_of, long_of};
use crate::target::Target;
use std::alloc::Global;
use tta_code::{Instruction, Long, Move, legal};
use tta_list::Items;
use tta_parse::Names;

/// Where an instruction stands in a text: the line on which it ends, and how many instructions
/// stand before it.
#[derive(Clone, Copy)]
pub struct Position {
    pub line: u32,
    pub before: u32,
}

/// The move of a slot on this bus, if it has one. A refusal is reported at the slot's line.
fn slot_move(
    target: &Target,
    labels: &Names<Label>,
    bus: u8,
    slot: &SlotForm,
) -> Result<Option<Move>, AsmError>
    ensures { Answers result (at_line slot.now.line
        (action_of (stated unit_meaning target.now.units.now) target.now.machine.now
        labels.now bus (option_map move_seen slot.now.action))) }
{
    match action_of(target, labels, bus, &slot.action) {
        Ok(action) => Ok(action),
        Err(refusal) => Err(refusal.at(slot.line)),
    }
}

/// The moves of slots, the first of them on bus 0. The first slot that is refused is reported.
fn moves_of(
    alloc: Global,
    target: &Target,
    labels: &Names<Label>,
    slots: &[SlotForm],
) -> Result<Items<Option<Move>>, AsmError>
    requires { length slots.now ≤ 16 }
    ensures answer { Answers result (moves_of (stated unit_meaning target.now.units.now)
        target.now.machine.now labels.now 0 (map slot_seen slots.now)) }
    ensures count { IfOk result (λ moves. length moves ≡ length slots.now) }
{
    let mut moves = Items::new(alloc);
    for (bus, slot) in slots.iter().enumerate() {
        let action = slot_move(target, labels, bus as u8, slot)?;
        moves.push(action)?;
    }
    Ok(moves)
}

/// The moves of slots, as `moves_of`, unless the slots are not as many as the buses, which is
/// refused as `Slots`.
fn all_moves(
    alloc: Global,
    target: &Target,
    labels: &Names<Label>,
    line: u32,
    slots: &[SlotForm],
) -> Result<Items<Option<Move>>, AsmError>
    ensures answer { let m = target.now.machine.now in let slots = map slot_seen slots.now in
        Answers result (refuse_if (not (length slots == length m.buses)) (line, Slots)
        (moves_of (stated unit_meaning target.now.units.now) m labels.now 0 slots)) }
    ensures count { IfOk result (λ moves. length moves ≡ length target.now.machine.now.buses) }
{
    let m = target.machine;
    if slots.len() != m.buses.len() {
        return Err(AsmRefusal::Slots.at(line));
    }
    moves_of(alloc, target, labels, slots)
}

/// The long immediate of a form, if there is one. A refusal is reported at its line.
fn longs_of(
    target: &Target,
    labels: &Names<Label>,
    form: &Option<LongForm>,
) -> Result<Option<Long>, AsmError>
    ensures answer { Answers result
        (longs_of target.now.machine.now labels.now (option_map long_seen form.now)) }
    ensures long { IfOk result
        (λ long. option_map_or (is_long target.now.machine.now) long true ≡ true) }
{
    let Some(l) = form else {
        return Ok(None);
    };
    match long_of(target, labels, l) {
        Ok(long) => Ok(Some(long)),
        Err(refusal) => Err(refusal.at(l.line)),
    }
}

/// An instruction, unless the machine cannot carry it out, which is refused as `Illegal`, or no
/// address is left for it after so many others, which is refused as `Range`.
fn checked(target: &Target, at: Position, i: Instruction) -> Result<Instruction, AsmError>
    requires count { length i.moves ≡ length target.now.machine.now.buses }
    requires long { option_map_or (is_long target.now.machine.now) i.long true ≡ true }
    ensures { let m = target.now.machine.now in
        Answers result (refuse_if (not (is_legal m i)) (at.line, Illegal)
        (refuse_if (nat_le (2 ^ m.control.address) at.before) (at.line, Range) (Ok i))) }
{
    if legal(target.machine, target.net, &i).is_err() {
        return Err(AsmRefusal::Illegal.at(at.line));
    }
    if target.machine.addresses() <= at.before {
        return Err(AsmRefusal::Range.at(at.line));
    }
    Ok(i)
}

/// The instruction of slots and a long immediate that stands at this position.
///
/// It is refused as `Slots` where the slots are not as many as the buses; then slot by slot, and by
/// its long immediate, each at its own line, as `action_of` and `long_of` refuse; then as `Illegal`
/// where the machine cannot carry it out; and as `Range` where no address is left.
#[tactic(auto, unfolding(crate::specs::Assembly::instruction_of))]
pub fn instruction_of(
    alloc: Global,
    target: &Target,
    labels: &Names<Label>,
    at: Position,
    slots: &[SlotForm],
    long: Option<LongForm>,
) -> Result<Instruction, AsmError>
    ensures { Answers result (instruction_of (stated unit_meaning target.now.units.now)
        target.now.machine.now labels.now at.line at.before (map slot_seen slots.now)
        (option_map long_seen long.entry)) }
{
    let moves = all_moves(alloc, target, labels, at.line, slots)?;
    let long = longs_of(target, labels, &long)?;
    checked(target, at, Instruction { moves, long })
}
