//! What an instruction writes.

ghost use Rattle.std.specs.Prelude.{◌≡◌, ◌+◌, ◌<◌, [], ◌++◌, ◌%◌, ◌==◌, if◌then◌else◌, map};
ghost use Rattle.std.specs.Prelude.{slice_get, option_to_list, IfSome, IsTrue};
ghost use Rattle.std.specs.List.{AllByRecursion};
ghost use Rattle.std.specs.Option.{option_copied, option_map_or};
ghost use Rattle.tta_arch.specs.Effects.{KeptImm, Written, target_of, width_of, write_of};
ghost use Rattle.tta_code.specs.Cycle.{State};
ghost use Rattle.tta_sim.specs.Places.{is_place, HasWritten};
ghost use Rattle.tta_places.specs.Carried.{carried, slots_of};
ghost use Rattle.tta_places.specs.Written.{is_slot_written_to, is_written_to};
ghost use Rattle.tta_places.specs.Writes.{long_writes, moves_write, slot_writes, writes_in};

use crate::carrying::word_of;
use crate::row::Row;
use tta_arch::{Dest, Machine, Template};
use tta_code::{Instruction, Long, Move};

/// How wide a register is of a file that is not there.
const WORD_BITS: u8 = 32;

/// How wide a register of a file is.
pub fn width_of(m: &Machine, file: u8) -> u8
    ensures { result ≡ width_of m.now file }
{
    match m.files.as_slice().get(usize::from(file)) {
        None => WORD_BITS,
        Some(f) => f.width,
    }
}

/// A word as a file keeps it.
fn narrowed(m: &Machine, file: u8, word: u32) -> u32
    ensures { result ≡ (if width_of m.now file == 1 then word % 2 else word) }
{
    if width_of(m, file) == 1 {
        word % 2
    } else {
        word
    }
}

/// Writes what a move writes that brings a word.
fn write_move(row: &mut Row, m: &Machine, back: u32, dst: Dest, word: u32)
    requires { IsTrue (is_written_to dst) }
    ensures { (ws : Written) → HasWritten row.old ws → HasWritten row.new
        (option_to_list (write_of m.now back (target_of dst, word)) ++ ws) }
{
    match dst {
        Dest::Reg { file, index } => row.set_register(file, index, narrowed(m, file, word)),
        Dest::Operand { unit } => row.set_operand(unit, word),
        Dest::Call => row.set_return_address(back),
        Dest::Trigger { .. } | Dest::Jump | Dest::Halt => {}
    }
}

/// Writes what the move of a slot writes where it carries a word.
fn write_slot(row: &mut Row, m: &Machine, back: u32, slot: Option<Move>, word: Option<u32>)
    requires { IsTrue (is_slot_written_to slot) }
    ensures { (ws : Written) → HasWritten row.old ws
        → HasWritten row.new (slot_writes m.now back slot word ++ ws) }
{
    let Some(v) = slot else {
        return;
    };
    let Some(word) = word else {
        return;
    };
    write_move(row, m, back, v.dst, word);
}

/// Writes what the moves of slots write, the last first, where they carry these words.
fn write_moves(row: &mut Row, m: &Machine, back: u32, slots: &[Option<Move>], words: &[Option<u32>])
    requires { AllByRecursion (λ slot. IsTrue (is_slot_written_to slot)) slots.now }
    ensures { (s : State) (ws : Written) → words.now ≡ map (carried s) slots.now
        → HasWritten row.old ws
        → HasWritten row.new (moves_write m.now back s slots.now ++ ws) }
{
    let mut i = slots.len();
    while i > 0 {
        i -= 1;
        write_slot(row, m, back, slots[i], word_of(words, i));
    }
}

/// The template of a long immediate.
fn template_at(m: &Machine, l: Long) -> Option<&Template>
    ensures { option_copied result ≡ slice_get m.now.templates l.template }
{
    m.templates.as_slice().get(usize::from(l.template))
}

/// The template of a long immediate, whose register is there.
fn template_of(m: &Machine, l: Long) -> Option<&Template>
    ensures is { option_copied result ≡ slice_get m.now.templates l.template }
    ensures there { IfSome (option_copied result)
        (λ t. IsTrue (is_place (KeptImm t.imm t.reg))) }
{
    m.rules();
    template_at(m, l)
}

/// Writes what a long immediate writes.
fn write_long(row: &mut Row, m: &Machine, long: Option<Long>)
    ensures { (ws : Written) → HasWritten row.old ws
        → HasWritten row.new (long_writes m.now long ++ ws) }
{
    let Some(l) = long else {
        return;
    };
    match template_of(m, l) {
        None => {}
        Some(t) => row.set_immediate(t.imm, t.reg, l.value),
    }
}

/// Writes what an instruction writes whose moves carry these words.
fn write_instruction(row: &mut Row, m: &Machine, back: u32, i: &Instruction, words: &[Option<u32>])
    requires { AllByRecursion (λ slot. IsTrue (is_slot_written_to slot)) i.now.moves }
    ensures { (s : State) (ws : Written) → words.now ≡ map (carried s) i.now.moves
        → HasWritten row.old ws → HasWritten row.new (writes_in m.now back s i.now ++ ws) }
{
    write_long(row, m, i.long);
    write_moves(row, m, back, i.moves.as_slice(), words);
}

/// The address to come back to after a call in the instruction of an address.
fn back_of(m: &Machine, pc: u32) -> u32
    requires { pc < 65536 }
    ensures { result ≡ pc + 1 + m.now.control.delay }
{
    pc + 1 + u32::from(m.control.delay)
}

/// Writes what the instruction of an address writes, if one was carried out.
pub fn write_made(
    row: &mut Row,
    m: &Machine,
    pc: u32,
    made: Option<&Instruction>,
    words: &[Option<u32>],
)
    requires within { IfSome (option_copied made) (λ i. pc < 65536) }
    requires slots { IfSome (option_copied made)
        (λ i. AllByRecursion (λ slot. IsTrue (is_slot_written_to slot)) i.moves) }
    ensures { (s : State) (ws : Written)
        → words.now ≡ map (carried s) (slots_of (option_copied made.entry))
        → HasWritten row.old ws → HasWritten row.new (option_map_or
        (writes_in m.now (pc + 1 + m.now.control.delay) s) (option_copied made.entry) [] ++ ws) }
{
    let Some(i) = made else {
        return;
    };
    write_instruction(row, m, back_of(m, pc), i, words);
}
