//! The operations that are left, one after another.

ghost use Rattle.std.specs.Prelude.{◌≡◌, ◌+◌, ◌≤◌, ◌++◌, map, filter, length, IfOk, OnOk};
ghost use Rattle.std.specs.List.{flat_map, enumerate_from};
ghost use Rattle.tta_boxed.specs.Boxed as b;
ghost use Rattle.tta_boxed_rtl.specs.Left as l;

use crate::at::{At, is_left};
use std::alloc::{AllocError, Global};
use tta_arch::{Unit, UnitOp};
use tta_offers::ops_at;

/// An operation that is left to a module, with its unit and its number.
#[derive(Clone, Copy)]
pub struct Left {
    pub unit: u8,
    pub op: u8,
    pub o: UnitOp,
}

/// Adds those of some operations of a unit that are left, these being those from one on.
fn add_ops(
    found: &mut Vec<Left>,
    at: &At<'_>,
    unit: u8,
    op: u8,
    ops: &[UnitOp],
) -> Result<(), AllocError>
    requires few { op + length ops.now ≤ 255 }
    ensures { let M = at.now.on.now.m.now in let L = l.told_by at.now.leaves.now in
        OnOk result (l.lefts found.new.items ≡ l.lefts found.old.items
        ++ map (λ o. (unit, o)) (filter (λ o. b.is_left M L o.1) (enumerate_from op ops.now))) }
{
    match ops {
        [] => Ok(()),
        [o, rest @ ..] => {
            if is_left(at, *o) {
                found.push(Left { unit, op, o: *o })?;
            }
            add_ops(found, at, unit, op + 1, rest)
        }
    }
}

/// Adds those of a unit.
fn add_unit(found: &mut Vec<Left>, at: &At<'_>, unit: u8) -> Result<(), AllocError>
    ensures { let M = at.now.on.now.m.now in let L = l.told_by at.now.leaves.now in
        OnOk result (l.lefts found.new.items
        ≡ l.lefts found.old.items ++ map (λ o. (unit, o)) (b.left_ops M L unit)) }
{
    add_ops(found, at, unit, 0, ops_at(at.on.m, unit))
}

/// Adds those of units, from one on.
fn add_units(found: &mut Vec<Left>, at: &At<'_>, unit: u8, units: &[Unit]) -> Result<(), AllocError>
    requires few { unit + length units.now ≤ 255 }
    ensures { let M = at.now.on.now.m.now in let L = l.told_by at.now.leaves.now in
        OnOk result (l.lefts found.new.items ≡ l.lefts found.old.items
        ++ flat_map (λ u. map (λ o. (u.0, o)) (b.left_ops M L u.0)) (enumerate_from unit units.now)) }
{
    match units {
        [] => Ok(()),
        [_, rest @ ..] => {
            add_unit(found, at, unit)?;
            add_units(found, at, unit + 1, rest)
        }
    }
}

/// All operations that are left.
pub fn all_left(alloc: Global, at: &At<'_>) -> Result<Vec<Left>, AllocError>
    ensures { let M = at.now.on.now.m.now in let L = l.told_by at.now.leaves.now in
        IfOk result (λ v. l.lefts v.items ≡ l.all_left M L) }
{
    let m = at.on.m;
    let mut found = Vec::new(alloc);
    add_units(&mut found, at, 0, m.units.as_slice())?;
    Ok(found)
}
