//! The modules that divide.

ghost use Rattle.std.specs.Prelude.{◌≡◌, ◌-◌, ◌++◌, OnOk};
ghost use Rattle.std.specs.List.{flat_map};
ghost use Rattle.tta_boxed_rtl.specs.Beside as d;
ghost use Rattle.tta_boxed_rtl.specs.Left.{lefts};
ghost use Rattle.tta_divider_rtl.specs.Texts.{divider_text};
ghost use Rattle.tta_ops.specs.Set.{stated};

use crate::at::{kind_of, op_name};
use crate::left::Left;
use std::alloc::{AllocError, Global};
use tta_arch::Machine;
use tta_divider::Kind;
use tta_divider_rtl::write_divider;
use tta_names::push_of_op;
use tta_ops::UnitSet;

/// Puts the module that divides for an operation: it has a stage less than the operation takes cycles.
fn push_named(
    alloc: Global,
    out: &mut Vec<u8>,
    m: &Machine,
    kind: Kind,
    l: Left,
) -> Result<(), AllocError>
    ensures { OnOk result (out.new.items ≡ out.old.items
        ++ divider_text (d.divider_name m.now l.unit l.op) kind (l.o.latency - 1)) }
{
    let mut name = Vec::new(alloc);
    push_of_op(&mut name, m, b"divider_", l.unit, l.op)?;
    write_divider(out, name.as_slice(), kind, l.o.latency.saturating_sub(1))
}

/// Puts the module that an operation is left to, if that divides.
fn push_divider(
    alloc: Global,
    out: &mut Vec<u8>,
    m: &Machine,
    units: &UnitSet,
    l: Left,
) -> Result<(), AllocError>
    ensures { let U = stated unit_meaning units.now in
        OnOk result (out.new.items ≡ out.old.items ++ d.divider_of U m.now (l.unit, (l.op, l.o))) }
{
    match kind_of(op_name(units, l.o.op)) {
        None => Ok(()),
        Some(kind) => push_named(alloc, out, m, kind, l),
    }
}

/// Puts the modules that these operations are left to, where they divide.
pub fn push_dividers(
    alloc: Global,
    out: &mut Vec<u8>,
    m: &Machine,
    units: &UnitSet,
    left: &[Left],
) -> Result<(), AllocError>
    ensures { let U = stated unit_meaning units.now in
        OnOk result (out.new.items ≡ out.old.items
        ++ flat_map (d.divider_of U m.now) (lefts left.now)) }
{
    match left {
        [] => Ok(()),
        [l, rest @ ..] => {
            push_divider(alloc, out, m, units, *l)?;
            push_dividers(alloc, out, m, units, rest)
        }
    }
}
