//! Words of a state, put at the end of a text.

ghost use Rattle.std.specs.Prelude.{◌≡◌, ◌≤◌, ◌<◌, ◌^◌, ◌++◌, decimal, length, OnOk};
ghost use Rattle.tta_code.specs.Cycle.{State};
ghost use Rattle.tta_sim.specs.Held.{Stands};
ghost use Rattle.tta_play.specs.States.{due_word, dues_text, immediate_word, operand_word};
ghost use Rattle.tta_play.specs.States.{register_word, word_text, words_text};

use itoa::Buffer;
use std::alloc::AllocError;
use tta_sim::Sim;

/// The longest delay of a result, in cycles.
const LONGEST: u8 = 16;

/// Puts a number, in decimal.
pub fn push_number(out: &mut Vec<u8>, n: u64) -> Result<(), AllocError>
    ensures { OnOk result (out.new.items ≡ out.old.items ++ decimal n) }
{
    let mut buffer = Buffer::new();
    out.extend_from_slice(buffer.format(n).as_bytes())
}

/// Puts a word, or "-" where there is none, with a blank before it.
pub fn push_word(out: &mut Vec<u8>, word: Option<u32>) -> Result<(), AllocError>
    ensures { OnOk result (out.new.items ≡ out.old.items ++ word_text word) }
{
    match word {
        None => out.extend_from_slice(b" -"),
        Some(word) => {
            out.extend_from_slice(b" ")?;
            push_number(out, u64::from(word))
        }
    }
}

/// Puts the words of the registers of a file.
pub fn push_registers(out: &mut Vec<u8>, sim: &Sim, file: u8, size: u8) -> Result<(), AllocError>
    requires file { file < 8 }
    requires size { size ≤ 64 }
    ensures { (s : State) → Stands sim.now s → OnOk result (out.new.items
        ≡ out.old.items ++ words_text (register_word s file) 0 size) }
{
    let mut index = 0;
    'registers: while index < size {
        push_word(out, sim.reg(file, index))?;
        index += 1;
    }
    Ok(())
}

/// Puts the words of the registers of an immediate unit.
pub fn push_immediates(out: &mut Vec<u8>, sim: &Sim, unit: u8, size: u8) -> Result<(), AllocError>
    requires unit { unit < 4 }
    requires size { size ≤ 16 }
    ensures { (s : State) → Stands sim.now s → OnOk result (out.new.items
        ≡ out.old.items ++ words_text (immediate_word s unit) 0 size) }
{
    let mut index = 0;
    'registers: while index < size {
        push_word(out, sim.immediate(unit, index))?;
        index += 1;
    }
    Ok(())
}

/// Puts the words at the operand ports of so many units.
pub fn push_operand_words(out: &mut Vec<u8>, sim: &Sim, units: u8) -> Result<(), AllocError>
    requires units { units ≤ 32 }
    ensures { (s : State) → Stands sim.now s → OnOk result (out.new.items
        ≡ out.old.items ++ words_text (operand_word s) 0 units) }
{
    let mut unit = 0;
    'operands: while unit < units {
        push_word(out, sim.operand(unit))?;
        unit += 1;
    }
    Ok(())
}

/// Puts the results of a unit that are due in so many cycles to come, the next one's first.
fn push_due_words(out: &mut Vec<u8>, sim: &Sim, unit: u8, cycles: u8) -> Result<(), AllocError>
    requires unit { unit < length sim.now.shown }
    requires few { sim.now.cycle < 2 ^ 63 }
    requires cycles { cycles ≤ 16 }
    ensures { (s : State) → Stands sim.now s → OnOk result (out.new.items
        ≡ out.old.items ++ words_text (due_word s unit) 1 cycles) }
{
    let mut passed = 0;
    'delays: while passed < cycles {
        push_word(out, sim.due(unit, passed + 1))?;
        passed += 1;
    }
    Ok(())
}

/// Puts all results of a unit that are due later.
#[tactic(auto, unfolding(crate::specs::States::dues_text))]
pub fn push_dues(out: &mut Vec<u8>, sim: &Sim, unit: u8) -> Result<(), AllocError>
    requires unit { unit < length sim.now.shown }
    requires few { sim.now.cycle < 2 ^ 63 }
    ensures { (s : State) → Stands sim.now s
        → OnOk result (out.new.items ≡ out.old.items ++ dues_text s unit) }
{
    push_due_words(out, sim, unit, LONGEST)
}
