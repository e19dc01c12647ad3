//! Which loads and stores are at addresses outside their spaces.

ghost use Rattle.std.specs.Prelude.{◌≡◌, ◌+◌, ◌<◌, ◌≤◌, ◌^◌, ◌==◌, ◌&&◌, ℕ, map, length};
ghost use Rattle.std.specs.Prelude.{if◌then◌else◌, slice_index, IsTrue};
ghost use Rattle.std.specs.List.{AllByRecursion, list_any};
ghost use Rattle.std.specs.Option.{option_copied, option_map_or};
ghost use Rattle.tta_arch.specs.Effects.{Written, op_at, operand_of, target_of};
ghost use Rattle.tta_code.specs.Cycle.{State};
ghost use Rattle.tta_sim.specs.Moves.{is_possible_slot, is_reachable};
ghost use Rattle.tta_sim.specs.Places.{HasWritten};
ghost use Rattle.tta_places.specs.Carried.{carried};
ghost use Rattle.tta_profile.specs.Outside.{address_in, address_of, is_outside, is_past};
ghost use Rattle.tta_profile.specs.Outside.{slot_address, words_of};
ghost use Rattle.tta_profile.specs.declared.outside.Space.TheVariants.{Data, Frame};

use crate::counts::Counts;
use crate::following::Followed;
use tta_arch::{Dest, Machine, Op, UnitOp};
use tta_code::Move;
use tta_places::{Row, word_of};

/// A space that operations load from and store into.
#[derive(Clone, Copy)]
pub enum Space {
    Data,
    Frame,
}

/// Where accesses are looked for: a machine, what its places keep after the cycle, and a space with the
/// number of its words.
#[derive(Clone, Copy)]
struct Watched<'a> {
    m: &'a Machine,
    row: &'a Row,
    space: Space,
    count: u32,
}

/// The address at which an operation loads from a space or stores into it.
fn address_in(space: Space, op: Op, operand: u32, word: u32) -> Option<u32>
    ensures { result ≡ address_in space op operand word }
{
    match (space, op) {
        (Space::Data, Op::Ldw) | (Space::Frame, Op::Ldf) => Some(word),
        (Space::Data, Op::Stw) | (Space::Frame, Op::Stf) => Some(operand),
        _ => None,
    }
}

/// The operation of a unit, if there is one.
fn op_at(m: &Machine, unit: u8, op: u8) -> Option<&UnitOp>
    ensures { option_copied result ≡ op_at m.now unit op }
{
    match m.units.as_slice().get(usize::from(unit)) {
        None => None,
        Some(u) => u.ops.as_slice().get(usize::from(op)),
    }
}

/// The operand of an operation of a unit, and 0 where it has none.
fn operand_of(row: &Row, unit: u8, o: &UnitOp) -> u32
    requires { unit < 32 }
    ensures { (after : Written) → HasWritten row.now after
        → result ≡ option_map_or (λ a. a) (operand_of after unit o.now) 0 }
{
    if o.arity != 2 {
        return 0;
    }
    row.operand(unit).unwrap_or(0)
}

/// The address at which a word accesses the space, if it starts an operation that does where it is
/// brought.
fn address_of(at: &Watched<'_>, dst: Dest, word: u32) -> Option<u32>
    requires few { length at.now.m.now.units ≤ 32 }
    requires reachable { IsTrue (is_reachable (length at.now.m.now.units) dst) }
    ensures { (after : Written) → HasWritten at.now.row.now after
        → result ≡ address_of at.now.m.now at.now.space after (target_of dst, word) }
{
    let Dest::Trigger { unit, op } = dst else {
        return None;
    };
    let o = op_at(at.m, unit, op)?;
    address_in(at.space, o.op, operand_of(at.row, unit, o), word)
}

/// The same of the move of a slot that carries a word, if it does.
fn slot_address(at: &Watched<'_>, slot: Option<Move>, word: Option<u32>) -> Option<u32>
    requires few { length at.now.m.now.units ≤ 32 }
    requires possible { IsTrue (is_possible_slot (length at.now.m.now.units) slot) }
    ensures { (after : Written) → HasWritten at.now.row.now after
        → result ≡ slot_address at.now.m.now at.now.space after slot word }
{
    let v = slot?;
    let word = word?;
    address_of(at, v.dst, word)
}

/// Whether an address, if there is one, is not below this number of words.
fn is_past(count: u32, address: Option<u32>) -> bool
    ensures { result ≡ is_past count address }
{
    match address {
        None => false,
        Some(address) => count <= address,
    }
}

/// Whether one of the moves of slots, which carried these words, accessed the space outside.
fn is_any_outside(at: &Watched<'_>, slots: &[Option<Move>], words: &[Option<u32>]) -> bool
    requires few { length at.now.m.now.units ≤ 32 }
    requires possible { AllByRecursion
        (λ slot. IsTrue (is_possible_slot (length at.now.m.now.units) slot)) slots.now }
    ensures { (s : State) (after : Written) → words.now ≡ map (carried s) slots.now
        → HasWritten at.now.row.now after → at.now.count ≡ length (words_of at.now.space s)
        → result ≡ list_any (is_outside at.now.m.now at.now.space after s) slots.now }
{
    for (bus, slot) in slots.iter().enumerate() {
        if is_past(at.count, slot_address(at, *slot, word_of(words, bus))) {
            return true;
        }
    }
    false
}

/// Counts whether the moves of slots, which are those of the instruction of an address, accessed the
/// data space, and the frame, outside in the cycle whose words are followed.
pub fn count_outside(
    counts: &mut Counts,
    followed: &Followed,
    m: &Machine,
    address: usize,
    slots: &[Option<Move>],
)
    requires few { length m.now.units ≤ 32 }
    requires possible { AllByRecursion
        (λ slot. IsTrue (is_possible_slot (length m.now.units) slot)) slots.now }
    requires room_data { length counts.old.outside_data ≡ length counts.old.executed }
    requires room_frame { length counts.old.outside_frame ≡ length counts.old.executed }
    ensures executed { counts.new.executed ≡ counts.old.executed }
    ensures passed { counts.new.passed ≡ counts.old.passed }
    ensures of_data { (s : State) (after : Written)
        → followed.now.carried.items ≡ map (carried s) slots.now
        → HasWritten followed.now.row after → m.now.data_words ≡ length s.memory
        → address < length counts.old.executed
        → slice_index counts.old.outside_data address < 2 ^ 63
        → (k : ℕ) → slice_index counts.new.outside_data k ≡ slice_index counts.old.outside_data k
        + (if k == address && list_any (is_outside m.now Data after s) slots.now then 1 else 0) }
    ensures of_frame { (s : State) (after : Written)
        → followed.now.carried.items ≡ map (carried s) slots.now
        → HasWritten followed.now.row after → m.now.frame_words ≡ length s.frame
        → address < length counts.old.executed
        → slice_index counts.old.outside_frame address < 2 ^ 63
        → (k : ℕ) → slice_index counts.new.outside_frame k ≡ slice_index counts.old.outside_frame k
        + (if k == address && list_any (is_outside m.now Frame after s) slots.now then 1 else 0) }
    ensures size_data { length counts.new.outside_data ≡ length counts.old.outside_data }
    ensures size_frame { length counts.new.outside_frame ≡ length counts.old.outside_frame }
{
    let words = followed.carried.as_slice();
    let data = Watched {
        m,
        row: &followed.row,
        space: Space::Data,
        count: m.data_words,
    };
    let frame = Watched {
        m,
        row: &followed.row,
        space: Space::Frame,
        count: m.frame_words,
    };
    let of_data = is_any_outside(&data, slots, words);
    let of_frame = is_any_outside(&frame, slots, words);
    counts.add_outside(address, of_data, of_frame);
}
