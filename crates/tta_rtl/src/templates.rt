//! The templates of an instruction, which buses they take, and its long immediate.

ghost use Rattle.std.specs.Prelude.{◌≡◌, ◌+◌, ◌<◌, ◌≤◌, ◌^◌, ◌++◌, length, OnOk};
ghost use Rattle.std.specs.List.{sum_by};
ghost use Rattle.tta_hardware.specs.Parts as p;
ghost use Rattle.tta_hardware.specs.Signals as s;
ghost use Rattle.tta_circuit.specs.Circuit as c;
ghost use Rattle.tta_names.specs.Names.{text_of};
ghost use Rattle.tta_rtl.specs.Parts.{part_text, share_width, shares_text};

use crate::on::On;
use std::alloc::AllocError;
use tta_arch::{BusFields, Template, has_bus};
use tta_verilog::{push_constant, push_part_of, push_text};

/// How many bits some buses have.
pub fn width_of(buses: &[BusFields]) -> u32
    requires { sum_by (λ f. f.width) buses.now < 2 ^ 32 }
    ensures { result ≡ sum_by (λ f. f.width) buses.now }
{
    match buses {
        [] => 0,
        [f, rest @ ..] => f.width + width_of(rest),
    }
}

/// How many bits of a long immediate the taken ones of some buses have, these being those from one on.
fn long_width(taken: u16, bus: usize, buses: &[BusFields]) -> u32
    requires room { bus + length buses.now < 2 ^ 64 }
    requires fits { sum_by (λ f. f.width) buses.now < 2 ^ 32 }
    ensures within { result ≤ sum_by (λ f. f.width) buses.now }
    ensures value { result ≡ share_width taken bus buses.now }
{
    match buses {
        [] => 0,
        [f, rest @ ..] => {
            let more = long_width(taken, bus + 1, rest);
            if has_bus(taken, bus) {
                f.width + more
            } else {
                more
            }
        }
    }
}

/// Puts a part of the instruction's word.
pub fn push_part(out: &mut Vec<u8>, low: u32, width: u32) -> Result<(), AllocError>
    ensures { OnOk result (out.new.items ≡ out.old.items ++ part_text low width) }
{
    push_part_of(out, b"n_word", low, width)
}

/// Puts the code of the template.
#[tactic(auto, using(crate::proofs::Shares::layout_width))]
pub fn push_template(out: &mut Vec<u8>, on: &On<'_>) -> Result<(), AllocError>
    ensures { let T = text_of on.now.m.now in
        OnOk result (out.new.items ≡ out.old.items
        ++ T (p.template_part on.now.m.now (c.Signal s.Whole))) }
{
    push_part(
        out,
        width_of(on.layout.buses.as_slice()),
        on.layout.template_width,
    )
}

/// Puts whether the instruction has a template.
#[tactic(auto, unfolding(tta_verilog::specs::Expressions::between))]
fn push_has_template(out: &mut Vec<u8>, on: &On<'_>, template: u8) -> Result<(), AllocError>
    ensures { let T = text_of on.now.m.now in
        OnOk result (out.new.items ≡ out.old.items
        ++ T (p.has_template on.now.m.now (c.Signal s.Whole) template)) }
{
    push_text(out, b"(")?;
    push_template(out, on)?;
    push_text(out, b")==(")?;
    push_constant(out, on.layout.template_width, u64::from(template) + 1)?;
    push_text(out, b")")
}

/// Puts whether the instruction has a template that takes a bus, of these from one on.
#[tactic(auto, unfolding(tta_verilog::specs::Expressions::between))]
pub fn push_takes_from(
    out: &mut Vec<u8>,
    on: &On<'_>,
    bus: usize,
    template: u8,
    templates: &[Template],
) -> Result<(), AllocError>
    requires { template + length templates.now ≤ 255 }
    ensures { let T = text_of on.now.m.now in
        OnOk result (out.new.items ≡ out.old.items
        ++ T (p.takes_from on.now.m.now (c.Signal s.Whole) bus template templates.now)) }
{
    match templates {
        [] => push_constant(out, 1, 0),
        [t, rest @ ..] => {
            if !has_bus(t.buses, bus) {
                return push_takes_from(out, on, bus, template + 1, rest);
            }
            push_text(out, b"(")?;
            push_has_template(out, on, template)?;
            push_text(out, b")||(")?;
            push_takes_from(out, on, bus, template + 1, rest)?;
            push_text(out, b")")
        }
    }
}

/// Puts the low 32 bits of a long immediate: the parts of those of some buses that are taken, these being
/// those from one on.
#[tactic(auto, unfolding(tta_verilog::specs::Expressions::joined))]
fn push_shares_from(
    out: &mut Vec<u8>,
    taken: u16,
    bus: usize,
    buses: &[BusFields],
) -> Result<(), AllocError>
    requires room { bus + length buses.now < 2 ^ 64 }
    requires fits { sum_by (λ f. f.width) buses.now < 2 ^ 32 }
    ensures { OnOk result (out.new.items ≡ out.old.items ++ shares_text taken bus buses.now) }
{
    match buses {
        [] => push_constant(out, 0, 0),
        [f, rest @ ..] => {
            let more = long_width(taken, bus + 1, rest);
            if !has_bus(taken, bus) || 32 <= more {
                return push_shares_from(out, taken, bus + 1, rest);
            }
            if more == 0 {
                return push_part(out, width_of(rest), f.width.min(32 - more));
            }
            push_text(out, b"{")?;
            push_part(out, width_of(rest), f.width.min(32 - more))?;
            push_text(out, b",")?;
            push_shares_from(out, taken, bus + 1, rest)?;
            push_text(out, b"}")
        }
    }
}

/// Puts the low 32 bits of the long immediate of a template that takes a set of buses.
#[tactic(auto, using(crate::proofs::Shares::shares_of_layout))]
fn push_shares(out: &mut Vec<u8>, on: &On<'_>, taken: u16) -> Result<(), AllocError>
    ensures { let T = text_of on.now.m.now in
        OnOk result (out.new.items ≡ out.old.items
        ++ T (p.shares_from on.now.m.now (c.Signal s.Whole) taken 0 (length on.now.m.now.buses))) }
{
    push_shares_from(out, taken, 0, on.layout.buses.as_slice())
}

/// Puts the long immediate of the template that the instruction has, of these from one on.
#[tactic(auto, unfolding(tta_verilog::specs::Expressions::choice))]
pub fn push_long_from(
    out: &mut Vec<u8>,
    on: &On<'_>,
    template: u8,
    templates: &[Template],
) -> Result<(), AllocError>
    requires { template + length templates.now ≤ 255 }
    ensures { let T = text_of on.now.m.now in
        OnOk result (out.new.items ≡ out.old.items
        ++ T (p.long_from on.now.m.now (c.Signal s.Whole) template templates.now)) }
{
    match templates {
        [] => push_constant(out, 32, 0),
        [t, rest @ ..] => {
            push_text(out, b"(")?;
            push_has_template(out, on, template)?;
            push_text(out, b")?(")?;
            push_shares(out, on, t.buses)?;
            push_text(out, b"):")?;
            push_long_from(out, on, template + 1, rest)
        }
    }
}
