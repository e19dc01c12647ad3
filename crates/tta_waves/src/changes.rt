//! What changes from one state to the next.

ghost use Rattle.std.specs.Prelude.{◌≡◌, ◌<◌, ◌++◌, ◌^◌, ℕ, [], if◌then◌else◌, false, slice_get, OnOk};
ghost use Rattle.std.specs.Option.{option_map_or};
ghost use Rattle.tta_waves.specs.Dump.{binary_of, change_text, changes_text, end_text, last_text, level_text};
ghost use Rattle.tta_waves.specs.Dump.{same_word, state_text, word_text};
ghost use Rattle.tta_waves.specs.Steps.{outcome_of};
ghost use Rattle.tta_code.specs.Cycle.{Fault};

use crate::declare::push_code;
use crate::level::{Level, same_word};
use std::alloc::AllocError;
use tta_sim::CycleStep;
use tta_verilog::{push_bit, push_number};

/// The longest word, in bits.
const WORD_BITS: u8 = 32;

/// Puts a word of so many bits at most in binary, without zeros before its first one.
fn push_binary(out: &mut Vec<u8>, bits: u8, word: u32) -> Result<(), AllocError>
    ensures { OnOk result (out.new.items ≡ out.old.items ++ binary_of bits word) }
{
    if bits == 0 {
        return Ok(());
    }
    if word < 2 {
        push_bit(out, word % 2 == 1)?;
        return Ok(());
    }
    push_binary(out, bits - 1, word / 2)?;
    push_bit(out, word % 2 == 1)?;
    Ok(())
}

/// Puts a word in binary, and x where there is none.
fn push_word(out: &mut Vec<u8>, word: Option<u32>) -> Result<(), AllocError>
    ensures { OnOk result (out.new.items ≡ out.old.items ++ word_text word) }
{
    match word {
        None => out.extend_from_slice(b"x"),
        Some(word) => push_binary(out, WORD_BITS, word),
    }
}

/// Puts a mark where a signal has more than one bit.
fn push_mark(out: &mut Vec<u8>, wide: bool, mark: &[u8]) -> Result<(), AllocError>
    ensures { OnOk result
        (out.new.items ≡ out.old.items ++ (if wide then mark.now else [])) }
{
    if wide {
        out.extend_from_slice(mark)
    } else {
        Ok(())
    }
}

/// Puts what is told of a signal.
#[tactic(auto, unfolding(crate::specs::Dump::level_text))]
fn push_level(out: &mut Vec<u8>, number: usize, level: Level) -> Result<(), AllocError>
    ensures { OnOk result (out.new.items ≡ out.old.items ++ level_text number level) }
{
    push_mark(out, level.wide, b"b")?;
    push_word(out, level.word)?;
    push_mark(out, level.wide, b" ")?;
    push_code(out, number)?;
    out.extend_from_slice(b"\n")
}

/// Whether a signal had this word before.
fn had(before: Option<Level>, level: Level) -> bool
    ensures { result ≡ option_map_or (λ b. same_word b.word level.word) before false }
{
    match before {
        None => false,
        Some(before) => same_word(before.word, level.word),
    }
}

/// Puts what is told of a signal where it changed.
fn push_change(
    out: &mut Vec<u8>,
    before: Option<Level>,
    number: usize,
    level: Level,
) -> Result<(), AllocError>
    ensures { OnOk result (out.new.items ≡ out.old.items ++ change_text before number level) }
{
    if had(before, level) {
        Ok(())
    } else {
        push_level(out, number, level)
    }
}

/// The level of the signal with this number, if there is one.
fn level_at(levels: &[Level], number: usize) -> Option<Level>
    ensures { result ≡ slice_get levels.now number }
{
    levels.get(number).copied()
}

/// Puts what changed of the levels before.
fn push_changes(out: &mut Vec<u8>, before: &[Level], now: &[Level]) -> Result<(), AllocError>
    ensures { OnOk result (out.new.items ≡ out.old.items ++ changes_text before.now now.now) }
{
    for (number, level) in now.iter().enumerate() {
        push_change(out, level_at(before, number), number, *level)?;
    }
    Ok(())
}

/// Puts the time of a state, and what changed of the levels before.
#[tactic(auto, unfolding(crate::specs::Dump::state_text))]
pub fn push_state(
    out: &mut Vec<u8>,
    before: &[Level],
    now: &[Level],
    cycle: u64,
) -> Result<(), AllocError>
    ensures { OnOk result (out.new.items ≡ out.old.items ++ state_text before.now now.now cycle) }
{
    out.extend_from_slice(b"#")?;
    push_number(out, cycle)?;
    out.extend_from_slice(b"\n")?;
    push_changes(out, before, now)
}

/// Puts the number of a fault; its time is not told.
fn push_fault(out: &mut Vec<u8>, number: u8) -> Result<(), AllocError>
    ensures { OnOk result (out.new.items ≡ out.old.items ++ end_text (Fault number 0)) }
{
    out.extend_from_slice(b"$comment fault ")?;
    push_number(out, u64::from(number))?;
    out.extend_from_slice(b" $end\n")?;
    Ok(())
}

/// Puts why a run is over, by the answer of its last cycle.
fn push_end(out: &mut Vec<u8>, step: CycleStep) -> Result<(), AllocError>
    ensures { (cycle : ℕ) → OnOk result
        (out.new.items ≡ out.old.items ++ end_text (outcome_of step cycle)) }
{
    match step {
        CycleStep::Ran { .. } => Ok(()),
        CycleStep::Halted => out.extend_from_slice(b"$comment halted $end\n"),
        CycleStep::Waiting => out.extend_from_slice(b"$comment waiting $end\n"),
        CycleStep::Fault(number) => push_fault(out, number),
    }
}

/// Puts why a run is over, if its last cycle was not carried out, and when the last state ends.
#[tactic(auto, unfolding(crate::specs::Dump::last_text))]
pub fn push_last(out: &mut Vec<u8>, step: CycleStep, cycle: u64) -> Result<(), AllocError>
    requires { cycle < 2 ^ 63 }
    ensures { OnOk result
        (out.new.items ≡ out.old.items ++ last_text (outcome_of step cycle) cycle) }
{
    push_end(out, step)?;
    out.extend_from_slice(b"#")?;
    push_number(out, cycle + 1)?;
    out.extend_from_slice(b"\n")
}
