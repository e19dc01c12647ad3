//! The machine of a draft, once all lines are read.

ghost use Rattle.std.specs.Prelude.{◌≡◌, ◌<◌, ◌^◌, Some, Err, length, IfOk, IfErr, OnOk};
ghost use Rattle.std.specs.List.{sum_by};
ghost use Rattle.tta_machine.specs.Draft.{code_of, machine_of, without_templates};
ghost use Rattle.tta_machine.specs.Kept.{IsDraft};
ghost use Rattle.tta_arch.specs.Layout.{layout_of};
ghost use Rattle.tta_machine.specs.Text.{narrow_line};
ghost use Rattle.tta_arch.specs.Rules.{IsMachine};
ghost use Rattle.tta_machine.specs.Whole.{CompleteEnds, WidthsEnd};
ghost use Rattle.tta_machine.specs.declared.refusal.MachineError.TheVariants.{Refused};

use crate::draft::Draft;
use crate::limits::WORD_BITS;
use crate::refusal::{MachineError, Refusal};
use std::alloc::Global;
use tta_arch::{Control, Layout, Machine, Template};
use tta_list::Items;

/// The machine of a draft. It is refused as `Missing` at line 0 where it has no bus or no control,
/// and as `TooNarrow` at the line of the first template whose buses have fewer than 32 bits
/// together.
pub fn complete(alloc: Global, draft: Draft) -> Result<Machine, MachineError>
    requires { IsDraft draft }
    ensures { CompleteEnds draft result }
{
    let control = control_of(&draft)?;
    let bare = bare_of(alloc, draft, control);
    check_widths(
        alloc,
        &bare.machine,
        bare.templates.as_slice(),
        bare.lines.as_slice(),
    )?;
    Ok(whole(bare))
}

/// A machine whose templates are still apart. How wide a bus is does not depend on them, so they
/// are left out until they are known to be wide enough.
#[derive(Drop)]
struct Bare {
    machine: Machine,
    templates: Items<Template>,
    /// The line of each template.
    lines: Items<u32>,
}

/// The control of a draft that has a bus.
fn control_of(draft: &Draft) -> Result<Control, MachineError>
    ensures control { IfOk result (λ c. draft.now.control ≡ Some c) }
    ensures bus { OnOk result (0 < length draft.now.buses) }
    ensures missing { IfErr result (λ e. CompleteEnds draft.now (Err e)) }
{
    match draft.control {
        Some(control) if !draft.buses.is_empty() => Ok(control),
        _ => Err(at_line(0, Refusal::Missing)),
    }
}

/// The machine of a draft, its templates apart.
fn bare_of(alloc: Global, draft: Draft, control: Control) -> Bare
    requires rules { IsDraft draft }
    requires control { draft.control ≡ Some control }
    requires bus { 0 < length draft.buses }
    ensures machine { result.machine ≡ without_templates (machine_of draft control) }
    ensures templates { result.templates ≡ draft.templates }
    ensures lines { result.lines ≡ draft.template_lines }
{
    let machine = Machine {
        buses: draft.buses,
        sockets: draft.sockets,
        files: draft.files,
        imms: draft.imms,
        units: draft.units,
        guards: draft.guards,
        templates: Items::new(alloc),
        control,
        data_words: draft.data_words.unwrap_or(0),
        frame_words: draft.frame_words.unwrap_or(0),
    };
    Bare {
        machine,
        templates: draft.templates,
        lines: draft.template_lines,
    }
}

/// The machine with its templates.
fn whole(bare: Bare) -> Machine
    requires { IsMachine (record bare.machine { templates = bare.templates }) }
    ensures { result ≡ record bare.machine { templates = bare.templates } }
{
    let mut machine = bare.machine;
    machine.templates = bare.templates;
    machine
}

/// Whether the buses of each template have 32 bits or more together.
fn check_widths(
    alloc: Global,
    m: &Machine,
    templates: &[Template],
    lines: &[u32],
) -> Result<(), MachineError>
    requires { length lines.now ≡ length templates.now }
    ensures { WidthsEnd m.now templates.now lines.now result }
{
    let layout = Layout::of(alloc, m)?;
    match narrow_line(m, &layout, templates, lines) {
        Some(line) => Err(at_line(line, Refusal::TooNarrow)),
        None => Ok(()),
    }
}

/// A refusal at a line.
fn at_line(line: u32, refusal: Refusal) -> MachineError
    ensures { result ≡ Refused line (code_of refusal) }
{
    MachineError::Refused {
        line,
        code: refusal.code(),
    }
}

/// The line of the first template whose buses have fewer than 32 bits together.
fn narrow_line(m: &Machine, layout: &Layout, templates: &[Template], lines: &[u32]) -> Option<u32>
    requires layout { layout.now ≡ layout_of m.now }
    requires fits { sum_by (λ f. f.width) layout.now.buses < 2 ^ 32 }
    requires lines { length lines.now ≡ length templates.now }
    ensures { result ≡ narrow_line m.now templates.now lines.now }
{
    for (k, template) in templates.iter().enumerate() {
        if layout.width_of_set(template.buses) < WORD_BITS {
            return Some(lines[k]);
        }
    }
    None
}
