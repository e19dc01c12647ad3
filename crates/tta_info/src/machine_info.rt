//! What is told of a machine.

ghost use Rattle.std.specs.Prelude.{◌≡◌, ◌++◌, IfOk, OnOk};
ghost use Rattle.tta_info.specs.Chosen.{build_text};
ghost use Rattle.tta_info.specs.MachineInfo.{info_of_machine, layout_text, parts_text, widths_text};

use crate::buses::push_buses;
use crate::chosen::{push_choice, push_refused};
use crate::lines::{end_line, push_count};
use crate::parts::{push_files, push_imms, push_templates};
use std::alloc::{AllocError, Global};
use tta_arch::{Layout, Machine};
use tta_connect::{CoverError, cover};

/// Puts the bits of an instruction and of its template's field.
#[tactic(auto, unfolding(crate::specs::MachineInfo::widths_text))]
fn push_widths(out: &mut Vec<u8>, instruction: u32, template: u32) -> Result<(), AllocError>
    ensures { OnOk result (out.new.items ≡ out.old.items ++ widths_text instruction template) }
{
    push_count(out, b"instruction ", u64::from(instruction))?;
    push_count(out, b"\ntemplate ", u64::from(template))?;
    end_line(out)
}

/// Puts these, and what is told of each bus.
#[tactic(auto, unfolding(crate::specs::MachineInfo::layout_text))]
fn push_layout(out: &mut Vec<u8>, m: &Machine, l: &Layout) -> Result<(), AllocError>
    ensures { OnOk result (out.new.items ≡ out.old.items ++ layout_text m.now l.now) }
{
    push_widths(out, l.width, l.template_width)?;
    push_buses(out, m, l.buses.as_slice())
}

/// Puts files, immediate units and templates.
#[tactic(auto, unfolding(crate::specs::MachineInfo::parts_text))]
fn push_parts(out: &mut Vec<u8>, m: &Machine) -> Result<(), AllocError>
    ensures { OnOk result (out.new.items ≡ out.old.items ++ parts_text m.now) }
{
    push_files(out, m.files.as_slice())?;
    push_imms(out, m.imms.as_slice())?;
    push_templates(out, m, m.templates.as_slice())
}

/// Puts what `build` chooses, or the first rule that the machine breaks.
fn push_build(out: &mut Vec<u8>, alloc: Global, m: &Machine) -> Result<(), AllocError>
    ensures { OnOk result (out.new.items ≡ out.old.items ++ build_text m.now) }
{
    match cover(alloc, m) {
        Ok(choice) => push_choice(out, m, &choice),
        Err(CoverError::Rule(rule)) => push_refused(out, rule),
        Err(CoverError::NoMemory) => Err(AllocError),
    }
}

/// What is told of a machine, as text: the fields of its instructions, the words that fit into each
/// bus and what the bus joins, its registers, and what `build` chooses on it or the first rule that
/// it breaks. It fails only where there is no memory.
#[tactic(auto, unfolding(crate::specs::MachineInfo::info_of_machine))]
pub fn tell_machine(alloc: Global, m: &Machine) -> Result<Vec<u8>, AllocError>
    ensures { IfOk result (λ v. v.items ≡ info_of_machine m.now) }
{
    let layout = Layout::of(alloc, m)?;
    let mut out = Vec::new(alloc);
    push_layout(&mut out, m, &layout)?;
    push_parts(&mut out, m)?;
    push_build(&mut out, alloc, m)?;
    Ok(out)
}
