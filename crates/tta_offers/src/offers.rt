//! Where the units of a machine offer an operation.

ghost use Rattle.std.specs.Prelude.{◌≡◌, ◌+◌, ◌≤◌, ◌++◌, true, map, filter, length, IfOk, OnOk};
ghost use Rattle.std.specs.List.{list_all, flat_map, enumerate_from};
ghost use Rattle.tta_arch.specs.Rules.{is_unit, same_op};
ghost use Rattle.tta_hardware.specs.Wires as w;
ghost use Rattle.tta_offers.specs.Offers.{places_in, places_of};

use std::alloc::{AllocError, Global};
use tta_arch::{Machine, Op, Socket, Unit, UnitOp, same_op};

/// An operation by its unit and its number.
#[derive(Clone, Copy)]
pub struct OpAt {
    pub unit: u8,
    pub op: u8,
}

/// Adds those of some operations of a unit that are one, these being those from one on.
fn add_ops(
    found: &mut Vec<OpAt>,
    wanted: Op,
    unit: u8,
    op: u8,
    ops: &[UnitOp],
) -> Result<(), AllocError>
    requires few { op + length ops.now ≤ 255 }
    ensures { OnOk result (places_of found.new.items ≡ places_of found.old.items
        ++ map (λ o. (unit, o.0)) (filter (λ o. same_op wanted o.1.op) (enumerate_from op ops.now))) }
{
    match ops {
        [] => Ok(()),
        [o, rest @ ..] => {
            if same_op(wanted, o.op) {
                found.push(OpAt { unit, op })?;
            }
            add_ops(found, wanted, unit, op + 1, rest)
        }
    }
}

/// Adds those of the operations of a unit that are one.
#[tactic(auto, unfolding(crate::specs::Offers::places_in))]
fn add_unit(found: &mut Vec<OpAt>, wanted: Op, unit: u8, u: &Unit) -> Result<(), AllocError>
    requires few { length u.now.ops ≤ 255 }
    ensures { OnOk result (places_of found.new.items
        ≡ places_of found.old.items ++ places_in (same_op wanted) (unit, u.now)) }
{
    add_ops(found, wanted, unit, 0, u.ops.as_slice())
}

/// Adds those of the operations of some units that are one, these being the units from one on.
fn add_units(
    found: &mut Vec<OpAt>,
    sockets: &[Socket],
    wanted: Op,
    unit: u8,
    units: &[Unit],
) -> Result<(), AllocError>
    requires few { unit + length units.now ≤ 255 }
    requires rules { list_all (is_unit sockets.now) units.now ≡ true }
    ensures { OnOk result (places_of found.new.items ≡ places_of found.old.items
        ++ flat_map (places_in (same_op wanted)) (enumerate_from unit units.now)) }
{
    match units {
        [] => Ok(()),
        [u, rest @ ..] => {
            add_unit(found, wanted, unit, u)?;
            add_units(found, sockets, wanted, unit + 1, rest)
        }
    }
}

/// Where units offer an operation.
#[tactic(auto, unfolding(crate::specs::Offers::places_in))]
pub fn all_ops(alloc: Global, m: &Machine, wanted: Op) -> Result<Vec<OpAt>, AllocError>
    ensures { IfOk result (λ ops. places_of ops.items ≡ w.all_ops m.now (same_op wanted)) }
{
    let mut found = Vec::new(alloc);
    add_units(
        &mut found,
        m.sockets.as_slice(),
        wanted,
        0,
        m.units.as_slice(),
    )?;
    Ok(found)
}
