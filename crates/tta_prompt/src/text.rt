//! What is shown at a prompt alone, as text.

ghost use Rattle.std.specs.Prelude.{◌≡◌, ◌++◌, IfOk, option_map, slice_get, codes};
ghost use Rattle.std.specs.Option.{option_copied};
ghost use Rattle.tta_ops.specs.Set.{stated};
ghost use Rattle.tta_code.specs.Cycle.{State};
ghost use Rattle.tta_disasm.specs.Canonical.{instruction_text};
ghost use Rattle.tta_sim.specs.Held.{Stands};
ghost use Rattle.tta_prompt.specs.Texts.{files_lines, help, own_text, word_line};

use crate::help::push_help;
use crate::own::Own;
use crate::registers::{push_files, push_number};
use std::alloc::{AllocError, Global};
use tta_arch::Machine;
use tta_code::{Code, Instruction};
use tta_debug::Basis;
use tta_disasm::push_instruction;
use tta_ops::UnitSet;
use tta_sim::Sim;

/// The list of all commands.
fn help_text(alloc: Global) -> Result<Vec<u8>, AllocError>
    ensures { IfOk result (λ text. text.items ≡ help) }
{
    let mut text = Vec::new(alloc);
    push_help(&mut text)?;
    Ok(text)
}

/// The lines of the registers that are set, and the last line after them.
#[tactic(auto, using(tta_arch::proofs::Sizes::sizes))]
fn registers_text(alloc: Global, sim: &Sim, m: &Machine) -> Result<Vec<u8>, AllocError>
    ensures { (s : State) → Stands sim.now s
        → IfOk result (λ text. text.items ≡ files_lines s m.now.files ++ codes "ok\n") }
{
    let mut text = Vec::new(alloc);
    push_files(&mut text, sim, m.files.as_slice())?;
    text.extend_from_slice(b"ok\n")?;
    Ok(text)
}

/// The instruction of an address, if there is one.
fn instruction_at(code: &Code, address: u32) -> Option<&Instruction>
    ensures { option_copied result ≡ slice_get code.now.words address }
{
    code.words.as_slice().get(address as usize)
}

/// An instruction as assembly.
fn assembly_text(
    alloc: Global,
    units: &UnitSet,
    m: &Machine,
    i: &Instruction,
) -> Result<Vec<u8>, AllocError>
    ensures { let U = stated unit_meaning units.now in
        IfOk result (λ text. text.items ≡ instruction_text U m.now i.now) }
{
    let mut text = Vec::new(alloc);
    push_instruction(&mut text, units, m, i)?;
    Ok(text)
}

/// The instruction of an address as assembly, if there is one.
fn code_text(alloc: Global, basis: &Basis<'_>, address: u32) -> Result<Option<Vec<u8>>, AllocError>
    ensures { let on = basis.now in let U = stated unit_meaning on.units.now in
        IfOk result (λ text. option_map (λ v. v.items) text
        ≡ option_map (instruction_text U on.m.now) (slice_get on.code.now.words address)) }
{
    match instruction_at(basis.code, address) {
        Some(i) => {
            let text = assembly_text(alloc, basis.units, basis.m, i)?;
            Ok(Some(text))
        }
        None => Ok(None),
    }
}

/// The line of a word.
#[tactic(auto, unfolding(crate::specs::Texts::word_line))]
fn word_text(alloc: Global, word: u32) -> Result<Vec<u8>, AllocError>
    ensures { IfOk result (λ text. text.items ≡ word_line word) }
{
    let mut text = Vec::new(alloc);
    push_number(&mut text, word)?;
    text.extend_from_slice(b"\n")?;
    Ok(text)
}

/// A word of the frame space, if there is one.
fn frame_word(sim: &Sim, slot: u32) -> Option<u32>
    ensures { (s : State) → Stands sim.now s → result ≡ slice_get s.frame slot }
{
    match sim.frame().get(slot as usize) {
        Some(word) => Some(*word),
        None => None,
    }
}

/// The line of a frame word, if there is one.
fn slot_text(alloc: Global, sim: &Sim, slot: u32) -> Result<Option<Vec<u8>>, AllocError>
    ensures { (s : State) → Stands sim.now s → IfOk result (λ text.
        option_map (λ v. v.items) text ≡ option_map word_line (slice_get s.frame slot)) }
{
    match frame_word(sim, slot) {
        Some(word) => {
            let text = word_text(alloc, word)?;
            Ok(Some(text))
        }
        None => Ok(None),
    }
}

/// What is shown of a run, if it is there. It fails only where there is no memory.
pub fn text_of(
    alloc: Global,
    basis: &Basis<'_>,
    sim: &Sim,
    own: Own,
) -> Result<Option<Vec<u8>>, AllocError>
    ensures { let on = basis.now in let U = stated unit_meaning on.units.now in
        (s : State) → Stands sim.now s → IfOk result (λ text.
        option_map (λ v. v.items) text ≡ own_text U on.m.now on.code.now s own) }
{
    match own {
        Own::Help => {
            let text = help_text(alloc)?;
            Ok(Some(text))
        }
        Own::Regs => {
            let text = registers_text(alloc, sim, basis.m)?;
            Ok(Some(text))
        }
        Own::Code(address) => code_text(alloc, basis, address),
        Own::Slot(slot) => slot_text(alloc, sim, slot),
    }
}
