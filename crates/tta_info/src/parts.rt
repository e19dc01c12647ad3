//! What is told of each file, immediate unit and template.

ghost use Rattle.std.specs.Prelude.{◌≡◌, ◌++◌, OnOk};
ghost use Rattle.tta_info.specs.Parts.{file_text, files_text, imm_text, imms_text};
ghost use Rattle.tta_info.specs.Parts.{template_text, templates_text};

use crate::lines::{end_line, push_count, push_number, start_line};
use std::alloc::AllocError;
use tta_arch::{File, ImmUnit, Machine, Template};
use tta_disasm::{imm_name, push_place};

/// Puts a file: how many registers it has, of how many bits, and how many moves of a cycle read and
/// write it.
#[tactic(auto, unfolding(crate::specs::Parts::file_text))]
fn push_file(out: &mut Vec<u8>, f: &File) -> Result<(), AllocError>
    ensures { OnOk result (out.new.items ≡ out.old.items ++ file_text f.now) }
{
    start_line(out, b"file ", f.name.as_bytes(), b" registers ")?;
    push_number(out, u64::from(f.size))?;
    push_count(out, b" bits ", u64::from(f.width))?;
    push_count(out, b" reads ", u64::from(f.read))?;
    push_count(out, b" writes ", u64::from(f.write))?;
    end_line(out)
}

/// Puts files.
pub fn push_files(out: &mut Vec<u8>, files: &[File]) -> Result<(), AllocError>
    ensures { OnOk result (out.new.items ≡ out.old.items ++ files_text files.now) }
{
    for f in files {
        push_file(out, f)?;
    }
    Ok(())
}

/// Puts an immediate unit.
#[tactic(auto, unfolding(crate::specs::Parts::imm_text))]
fn push_imm(out: &mut Vec<u8>, i: &ImmUnit) -> Result<(), AllocError>
    ensures { OnOk result (out.new.items ≡ out.old.items ++ imm_text i.now) }
{
    start_line(out, b"imm ", i.name.as_bytes(), b" registers ")?;
    push_number(out, u64::from(i.size))?;
    end_line(out)
}

/// Puts immediate units.
pub fn push_imms(out: &mut Vec<u8>, imms: &[ImmUnit]) -> Result<(), AllocError>
    ensures { OnOk result (out.new.items ≡ out.old.items ++ imms_text imms.now) }
{
    for i in imms {
        push_imm(out, i)?;
    }
    Ok(())
}

/// Puts a template, and the register that it writes.
#[tactic(auto, unfolding(crate::specs::Parts::template_text))]
fn push_template(out: &mut Vec<u8>, m: &Machine, t: &Template) -> Result<(), AllocError>
    ensures { OnOk result (out.new.items ≡ out.old.items ++ template_text m.now t.now) }
{
    start_line(out, b"template ", t.name.as_bytes(), b" writes ")?;
    push_place(out, imm_name(m, t.imm), t.reg)?;
    end_line(out)
}

/// Puts templates.
pub fn push_templates(
    out: &mut Vec<u8>,
    m: &Machine,
    templates: &[Template],
) -> Result<(), AllocError>
    ensures { OnOk result (out.new.items ≡ out.old.items ++ templates_text m.now templates.now) }
{
    for t in templates {
        push_template(out, m, t)?;
    }
    Ok(())
}
