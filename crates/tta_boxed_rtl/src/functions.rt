//! The functions of the operations that the circuit makes itself.

ghost use Rattle.std.specs.Prelude.{◌≡◌, ◌<◌, ◌++◌, length, OnOk};
ghost use Rattle.tta_boxed_rtl.specs.Left as l;
ghost use Rattle.tta_ops.specs.Set.{stated};

use crate::at::{At, is_left};
use std::alloc::AllocError;
use tta_arch::{Unit, UnitOp};
use tta_ops::{OpId, UnitSet};
use tta_rtl::{has_number, push_function};

/// Whether an operation of a unit is the one of a number, and the circuit makes it itself.
fn is_made(id: OpId, at: &At<'_>, o: UnitOp) -> bool
    ensures { result ≡ l.is_made at.now.on.now.m.now (l.told_by at.now.leaves.now) id.0 o }
{
    has_number(id, o.op) && !is_left(at, o)
}

/// Whether one of some operations is so.
fn is_made_among(id: OpId, at: &At<'_>, ops: &[UnitOp]) -> bool
    ensures { let L = l.told_by at.now.leaves.now in
        result ≡ l.is_made_among at.now.on.now.m.now L id.0 ops.now }
{
    match ops {
        [] => false,
        [o, rest @ ..] => is_made(id, at, *o) || is_made_among(id, at, rest),
    }
}

/// Whether one of some units is.
fn is_made_by(id: OpId, at: &At<'_>, all: &[Unit]) -> bool
    ensures { let L = l.told_by at.now.leaves.now in
        result ≡ l.is_made_by at.now.on.now.m.now L id.0 all.now }
{
    match all {
        [] => false,
        [u, rest @ ..] => { is_made_among(id, at, u.ops.as_slice()) || is_made_by(id, at, rest) }
    }
}

/// Puts the function of an operation, if some unit has it made by the circuit.
fn push_made_function(
    out: &mut Vec<u8>,
    at: &At<'_>,
    units: &UnitSet,
    id: OpId,
) -> Result<(), AllocError>
    requires { id.0 < length (stated unit_meaning units.now).names }
    ensures { let U = stated unit_meaning units.now in let L = l.told_by at.now.leaves.now in
        OnOk result (out.new.items ≡ out.old.items
        ++ l.made_function U at.now.on.now.m.now L id.0) }
{
    let m = at.on.m;
    if !is_made_by(id, at, m.units.as_slice()) {
        return Ok(());
    }
    push_function(out, id, units.name(id).as_bytes())
}

/// Puts the functions of all operations that the circuit makes itself.
pub fn push_functions(out: &mut Vec<u8>, at: &At<'_>, units: &UnitSet) -> Result<(), AllocError>
    ensures { let U = stated unit_meaning units.now in let L = l.told_by at.now.leaves.now in
        OnOk result (out.new.items ≡ out.old.items ++ l.functions_text U at.now.on.now.m.now L) }
{
    for op in 0..units.len() {
        push_made_function(out, at, units, OpId(op as u32))?;
    }
    Ok(())
}
