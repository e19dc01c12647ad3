//! The machine and its code.

ghost use Rattle.std.specs.Prelude.{◌≡◌, ◌++◌, take, OnOk};
ghost use Rattle.tta_ops.specs.Set.{stated};
ghost use Rattle.tta_play.specs.Statement.{asked_text, code_part, count_text, delay_text};
ghost use Rattle.tta_play.specs.Statement.{known_text, row_text, rows_text, template_text};
ghost use Rattle.tta_play.specs.Statement.{templates_text};

use crate::names::push_names;
use crate::playing::Span;
use crate::ports::push_ports;
use crate::words::push_number;
use std::alloc::AllocError;
use tta_arch::{Machine, Template};
use tta_code::Instruction;
use tta_disasm::{imm_name, push_instruction, push_place};
use tta_ops::UnitSet;
use tta_pages::{fit, keep_within};
use tta_profile::Basis;

/// How many instructions a page has at most.
const MOST_INSTRUCTIONS: usize = 4096;

/// How many bytes they have at most.
const MOST_ROW_BYTES: usize = 1_048_576;

/// How many bytes there are of the machine at most. No machine has so many.
const MOST_MACHINE_BYTES: usize = 65_536;

/// Puts how many delay slots a jump has.
#[tactic(auto, unfolding(crate::specs::Statement::delay_text))]
fn push_delay(out: &mut Vec<u8>, m: &Machine) -> Result<(), AllocError>
    ensures { OnOk result (out.new.items ≡ out.old.items ++ delay_text m.now) }
{
    out.extend_from_slice(b"delay ")?;
    push_number(out, u64::from(m.control.delay))?;
    out.extend_from_slice(b"\n")
}

/// Puts a template, and the register that takes its long immediate.
#[tactic(auto, unfolding(crate::specs::Statement::template_text))]
fn push_template(out: &mut Vec<u8>, m: &Machine, t: &Template) -> Result<(), AllocError>
    ensures { OnOk result (out.new.items ≡ out.old.items ++ template_text m.now t.now) }
{
    out.extend_from_slice(b"template ")?;
    out.extend_from_slice(t.name.as_bytes())?;
    out.extend_from_slice(b" ")?;
    push_place(out, imm_name(m, t.imm), t.reg)?;
    out.extend_from_slice(b"\n")
}

/// Puts templates.
fn push_templates(out: &mut Vec<u8>, m: &Machine, templates: &[Template]) -> Result<(), AllocError>
    ensures { OnOk result (out.new.items
        ≡ out.old.items ++ templates_text m.now templates.now) }
{
    for t in templates {
        push_template(out, m, t)?;
    }
    Ok(())
}

/// Puts an instruction after its address.
#[tactic(auto, unfolding(crate::specs::Statement::row_text))]
fn push_row(
    out: &mut Vec<u8>,
    units: &UnitSet,
    m: &Machine,
    address: usize,
    i: &Instruction,
) -> Result<(), AllocError>
    ensures { let U = stated unit_meaning units.now in
        OnOk result (out.new.items ≡ out.old.items ++ row_text U m.now address i.now) }
{
    out.extend_from_slice(b"row ")?;
    push_number(out, address as u64)?;
    out.extend_from_slice(b" ")?;
    push_instruction(out, units, m, i)
}

/// The first of some instructions, as many as a page has.
fn first_of(words: &[Instruction]) -> &[Instruction]
    ensures { result.now ≡ take 4096 words.now }
{
    if words.len() > MOST_INSTRUCTIONS {
        &words[..MOST_INSTRUCTIONS]
    } else {
        words
    }
}

/// Puts instructions, each after its address, as many of them as there is room for.
fn push_rows(
    out: &mut Vec<u8>,
    units: &UnitSet,
    m: &Machine,
    words: &[Instruction],
) -> Result<(), AllocError>
    ensures { let U = stated unit_meaning units.now in
        OnOk result (out.new.items ≡ out.old.items ++ rows_text U m.now words.now) }
{
    let mut room = MOST_ROW_BYTES;
    for (address, i) in words.iter().enumerate() {
        let from = out.len();
        push_row(out, units, m, address, i)?;
        let Some(left) = fit(out, from, room) else {
            return Ok(());
        };
        room = left;
    }
    Ok(())
}

/// Puts how many instructions the code has.
#[tactic(auto, unfolding(crate::specs::Statement::count_text))]
fn push_count(out: &mut Vec<u8>, words: usize) -> Result<(), AllocError>
    ensures { OnOk result (out.new.items ≡ out.old.items ++ count_text words) }
{
    out.extend_from_slice(b"instructions ")?;
    push_number(out, words as u64)?;
    out.extend_from_slice(b"\n")
}

/// Puts which cycles were asked for.
#[tactic(auto, unfolding(crate::specs::Statement::asked_text))]
fn push_asked(out: &mut Vec<u8>, span: Span) -> Result<(), AllocError>
    ensures { OnOk result (out.new.items ≡ out.old.items ++ asked_text span.first span.bound) }
{
    out.extend_from_slice(b"asked ")?;
    push_number(out, span.first)?;
    out.extend_from_slice(b" ")?;
    push_number(out, span.bound)?;
    out.extend_from_slice(b"\n")
}

/// Puts what is told of the machine, of how long its code is, and of what was asked for.
#[tactic(auto, unfolding(crate::specs::Statement::known_text))]
fn push_known(out: &mut Vec<u8>, m: &Machine, words: usize, span: Span) -> Result<(), AllocError>
    ensures { OnOk result (out.new.items
        ≡ out.old.items ++ known_text m.now words span.first span.bound) }
{
    push_names(out, m)?;
    push_ports(out, m)?;
    push_delay(out, m)?;
    push_templates(out, m, m.templates.as_slice())?;
    push_count(out, words)?;
    push_asked(out, span)
}

/// Puts the machine and its code, and what was asked for.
#[tactic(auto, unfolding(crate::specs::Statement::code_part))]
pub fn push_code_part(out: &mut Vec<u8>, basis: &Basis<'_>, span: Span) -> Result<(), AllocError>
    ensures { let on = basis.now in let U = stated unit_meaning on.units.now in
        OnOk result (out.new.items ≡ out.old.items
        ++ code_part U on.m.now on.code.now.words span.first span.bound) }
{
    let from = out.len();
    push_known(out, basis.m, basis.code.words.len(), span)?;
    keep_within(out, from, MOST_MACHINE_BYTES);
    push_rows(
        out,
        basis.units,
        basis.m,
        first_of(basis.code.words.as_slice()),
    )
}
