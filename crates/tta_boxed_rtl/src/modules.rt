//! The modules beside the circuit: what they show, and where they stand.

ghost use Rattle.std.specs.Prelude.{◌≡◌, ◌-◌, ◌++◌, OnOk};
ghost use Rattle.std.specs.List.{flat_map};
ghost use Rattle.tta_boxed_rtl.specs.Beside as d;
ghost use Rattle.tta_boxed_rtl.specs.Left.{lefts};
ghost use Rattle.tta_hardware.specs.Signals as s;
ghost use Rattle.tta_ops.specs.Set.{stated};

use crate::at::{kind_of, op_name};
use crate::left::Left;
use std::alloc::AllocError;
use tta_arch::Machine;
use tta_names::{push_made_name, push_of_op};
use tta_ops::UnitSet;
use tta_rtl::{On, UnitWord, push_first_word, push_unit_word};
use tta_verilog::{push_number, push_range, push_text};

/// Puts the declaration of the word that a module shows.
#[tactic(auto, unfolding(crate::specs::Beside::made_line))]
fn push_made_line(out: &mut Vec<u8>, m: &Machine, l: Left) -> Result<(), AllocError>
    ensures { OnOk result (out.new.items ≡ out.old.items
        ++ d.made_line m.now (s.Boxes (s.Shows l.unit l.op), 32)) }
{
    push_text(out, b"wire ")?;
    push_range(out, 32)?;
    push_made_name(out, m, l.unit, l.op)?;
    push_text(out, b";\n")
}

/// Puts the declarations of the words that the modules of these operations show.
pub fn push_made_lines(out: &mut Vec<u8>, m: &Machine, left: &[Left]) -> Result<(), AllocError>
    ensures { OnOk result (out.new.items ≡ out.old.items
        ++ flat_map (λ l. d.made_line m.now (s.Boxes (s.Shows l.0 l.1.0), 32)) (lefts left.now)) }
{
    match left {
        [] => Ok(()),
        [l, rest @ ..] => {
            push_made_line(out, m, *l)?;
            push_made_lines(out, m, rest)
        }
    }
}

/// Puts the module of an operation of the designer's own, with so many stages.
#[tactic(auto, unfolding(crate::specs::Beside::own_module))]
fn push_own_module(out: &mut Vec<u8>, name: &[u8], stages: u8) -> Result<(), AllocError>
    ensures { OnOk result (out.new.items ≡ out.old.items ++ d.own_module name.now stages) }
{
    push_text(out, b"box_")?;
    push_text(out, name)?;
    push_text(out, b" #(.STAGES(")?;
    push_number(out, u64::from(stages))?;
    push_text(out, b"))")
}

/// Puts which module an operation is left to.
fn push_module_of(
    out: &mut Vec<u8>,
    m: &Machine,
    units: &UnitSet,
    l: Left,
) -> Result<(), AllocError>
    ensures { let U = stated unit_meaning units.now in
        OnOk result (out.new.items ≡ out.old.items ++ d.module_of U m.now (l.unit, (l.op, l.o))) }
{
    let name = op_name(units, l.o.op);
    match kind_of(name) {
        Some(_) => push_of_op(out, m, b"divider_", l.unit, l.op),
        None => push_own_module(out, name, l.o.latency.saturating_sub(1)),
    }
}

/// Puts the ports of that module with what they are joined to.
#[tactic(auto, unfolding(crate::specs::Beside::joined_ports))]
fn push_joined_ports(out: &mut Vec<u8>, on: &On<'_>, l: Left) -> Result<(), AllocError>
    ensures { OnOk result (out.new.items ≡ out.old.items
        ++ d.joined_ports on.now.m.now (l.unit, (l.op, l.o))) }
{
    push_text(out, b" (.clk(clk), .enable(n_goes), .a(")?;
    push_first_word(out, on, l.unit, l.o)?;
    push_text(out, b"), .b(")?;
    push_unit_word(out, on.m, UnitWord::Trigger, l.unit)?;
    push_text(out, b"), .word(")?;
    push_made_name(out, on.m, l.unit, l.op)?;
    push_text(out, b"));\n")
}

/// Puts the line of a module.
#[tactic(auto, unfolding(crate::specs::Beside::module_line))]
fn push_module_line(
    out: &mut Vec<u8>,
    on: &On<'_>,
    units: &UnitSet,
    l: Left,
) -> Result<(), AllocError>
    ensures { let U = stated unit_meaning units.now in
        OnOk result (out.new.items ≡ out.old.items
        ++ d.module_line U on.now.m.now (l.unit, (l.op, l.o))) }
{
    push_module_of(out, on.m, units, l)?;
    push_of_op(out, on.m, b" module_", l.unit, l.op)?;
    push_joined_ports(out, on, l)
}

/// Puts the lines of the modules of these operations.
pub fn push_module_lines(
    out: &mut Vec<u8>,
    on: &On<'_>,
    units: &UnitSet,
    left: &[Left],
) -> Result<(), AllocError>
    ensures { let U = stated unit_meaning units.now in
        OnOk result (out.new.items ≡ out.old.items
        ++ flat_map (d.module_line U on.now.m.now) (lefts left.now)) }
{
    match left {
        [] => Ok(()),
        [l, rest @ ..] => {
            push_module_line(out, on, units, *l)?;
            push_module_lines(out, on, units, rest)
        }
    }
}
