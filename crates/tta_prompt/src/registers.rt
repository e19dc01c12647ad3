//! The registers that are set, put at the end of a text.

ghost use Rattle.std.specs.Prelude.{◌≡◌, ◌≤◌, ◌<◌, ◌++◌, decimal, length, OnOk, All};
ghost use Rattle.tta_code.specs.Cycle.{State};
ghost use Rattle.tta_sim.specs.Held.{Stands};
ghost use Rattle.tta_prompt.specs.Texts.{register_line, register_lines, register_word};
ghost use Rattle.tta_prompt.specs.Texts.{file_lines, files_lines};

use itoa::Buffer;
use std::alloc::AllocError;
use tta_arch::File;
use tta_disasm::push_place;
use tta_sim::Sim;

/// Puts a number, in decimal.
pub fn push_number(out: &mut Vec<u8>, n: u32) -> Result<(), AllocError>
    ensures { OnOk result (out.new.items ≡ out.old.items ++ decimal n) }
{
    let mut buffer = Buffer::new();
    out.extend_from_slice(buffer.format(n).as_bytes())
}

/// Puts the line of a register, if it is set.
fn push_register(
    out: &mut Vec<u8>,
    name: &[u8],
    index: u8,
    word: Option<u32>,
) -> Result<(), AllocError>
    ensures { OnOk result (out.new.items ≡ out.old.items ++ register_line name.now index word) }
{
    let Some(word) = word else {
        return Ok(());
    };
    push_place(out, name, index)?;
    out.extend_from_slice(b" ")?;
    push_number(out, word)?;
    out.extend_from_slice(b"\n")
}

/// Puts the lines of so many registers of a file.
fn push_registers(
    out: &mut Vec<u8>,
    sim: &Sim,
    name: &[u8],
    file: u8,
    size: u8,
) -> Result<(), AllocError>
    requires file { file < 8 }
    requires size { size ≤ 64 }
    ensures { (s : State) → Stands sim.now s → OnOk result (out.new.items
        ≡ out.old.items ++ register_lines name.now (register_word s file) 0 size) }
{
    let mut index = 0;
    'registers: while index < size {
        push_register(out, name, index, sim.reg(file, index))?;
        index += 1;
    }
    Ok(())
}

/// Puts the lines of the registers of a file.
#[tactic(auto, unfolding(crate::specs::Texts::file_lines))]
fn push_file(out: &mut Vec<u8>, sim: &Sim, file: u8, f: &File) -> Result<(), AllocError>
    requires file { file < 8 }
    requires size { f.now.size ≤ 64 }
    ensures { (s : State) → Stands sim.now s
        → OnOk result (out.new.items ≡ out.old.items ++ file_lines s file f.now) }
{
    push_registers(out, sim, f.name.as_bytes(), file, f.size)
}

/// Puts the lines of the registers of files.
pub fn push_files(out: &mut Vec<u8>, sim: &Sim, files: &[File]) -> Result<(), AllocError>
    requires few { length files.now ≤ 8 }
    requires sizes { All (λ f. f.size ≤ 64) files.now }
    ensures { (s : State) → Stands sim.now s
        → OnOk result (out.new.items ≡ out.old.items ++ files_lines s files.now) }
{
    for (file, f) in files.iter().enumerate() {
        push_file(out, sim, file as u8, f)?;
    }
    Ok(())
}
