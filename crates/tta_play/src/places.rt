//! The words that registers, immediate registers, operand ports and the return address keep, put at the end of a
//! text.

ghost use Rattle.std.specs.Prelude.{◌≡◌, ◌≤◌, ◌<◌, ◌++◌, length, OnOk, All};
ghost use Rattle.tta_code.specs.Cycle.{State};
ghost use Rattle.tta_sim.specs.Held.{Stands};
ghost use Rattle.tta_play.specs.States.{file_text, files_text, imm_text, imms_text, operands_text};
ghost use Rattle.tta_play.specs.States.{places_text, return_text};

use crate::words::{push_immediates, push_operand_words, push_registers, push_word};
use std::alloc::AllocError;
use tta_arch::{File, ImmUnit, Machine};
use tta_sim::Sim;

/// Puts the registers of a file.
#[tactic(auto, unfolding(crate::specs::States::file_text))]
fn push_file(out: &mut Vec<u8>, sim: &Sim, file: u8, f: &File) -> Result<(), AllocError>
    requires file { file < 8 }
    requires size { f.now.size ≤ 64 }
    ensures { (s : State) → Stands sim.now s
        → OnOk result (out.new.items ≡ out.old.items ++ file_text s file f.now) }
{
    out.extend_from_slice(b"registers")?;
    push_registers(out, sim, file, f.size)?;
    out.extend_from_slice(b"\n")
}

/// Puts the registers of files.
fn push_files(out: &mut Vec<u8>, sim: &Sim, files: &[File]) -> Result<(), AllocError>
    requires few { length files.now ≤ 8 }
    requires sizes { All (λ f. f.size ≤ 64) files.now }
    ensures { (s : State) → Stands sim.now s
        → OnOk result (out.new.items ≡ out.old.items ++ files_text s files.now) }
{
    for (file, f) in files.iter().enumerate() {
        push_file(out, sim, file as u8, f)?;
    }
    Ok(())
}

/// Puts the registers of an immediate unit.
#[tactic(auto, unfolding(crate::specs::States::imm_text))]
fn push_imm(out: &mut Vec<u8>, sim: &Sim, unit: u8, i: &ImmUnit) -> Result<(), AllocError>
    requires unit { unit < 4 }
    requires size { i.now.size ≤ 16 }
    ensures { (s : State) → Stands sim.now s
        → OnOk result (out.new.items ≡ out.old.items ++ imm_text s unit i.now) }
{
    out.extend_from_slice(b"immediates")?;
    push_immediates(out, sim, unit, i.size)?;
    out.extend_from_slice(b"\n")
}

/// Puts the registers of immediate units.
fn push_imms(out: &mut Vec<u8>, sim: &Sim, imms: &[ImmUnit]) -> Result<(), AllocError>
    requires few { length imms.now ≤ 4 }
    requires sizes { All (λ i. i.size ≤ 16) imms.now }
    ensures { (s : State) → Stands sim.now s
        → OnOk result (out.new.items ≡ out.old.items ++ imms_text s imms.now) }
{
    for (unit, i) in imms.iter().enumerate() {
        push_imm(out, sim, unit as u8, i)?;
    }
    Ok(())
}

/// Puts the words at the operand ports of so many units.
#[tactic(auto, unfolding(crate::specs::States::operands_text))]
fn push_operands(out: &mut Vec<u8>, sim: &Sim, units: usize) -> Result<(), AllocError>
    requires { units ≤ 32 }
    ensures { (s : State) → Stands sim.now s
        → OnOk result (out.new.items ≡ out.old.items ++ operands_text s units) }
{
    out.extend_from_slice(b"operands")?;
    push_operand_words(out, sim, units as u8)?;
    out.extend_from_slice(b"\n")
}

/// Puts the return address.
#[tactic(auto, unfolding(crate::specs::States::return_text))]
fn push_return(out: &mut Vec<u8>, sim: &Sim) -> Result<(), AllocError>
    ensures { (s : State) → Stands sim.now s
        → OnOk result (out.new.items ≡ out.old.items ++ return_text s) }
{
    out.extend_from_slice(b"return")?;
    push_word(out, sim.return_address())?;
    out.extend_from_slice(b"\n")
}

/// Puts all words that a machine keeps beside its spaces.
#[tactic(auto, unfolding(crate::specs::States::places_text), using(tta_arch::proofs::Sizes::sizes, crate::proofs::Sizes::imm_sizes))]
pub fn push_places(out: &mut Vec<u8>, m: &Machine, sim: &Sim) -> Result<(), AllocError>
    ensures { (s : State) → Stands sim.now s
        → OnOk result (out.new.items ≡ out.old.items ++ places_text m.now s) }
{
    push_files(out, sim, m.files.as_slice())?;
    push_imms(out, sim, m.imms.as_slice())?;
    push_operands(out, sim, m.units.len())?;
    push_return(out, sim)
}
