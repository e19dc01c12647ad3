//! What the text is written of, and which operations are left.

ghost use Rattle.std.specs.Prelude.{◌≡◌, ◌<◌, map, length, slice_index_or, [], IfOk};
ghost use Rattle.tta_boxed.specs.Boxed as b;
ghost use Rattle.tta_boxed_rtl.specs.Left as l;
ghost use Rattle.tta_ops.specs.Set.{stated};

use std::alloc::{AllocError, Global};
use tta_arch::{Op, UnitOp};
use tta_divider::Kind;
use tta_ops::{OpId, UnitSet};
use tta_rtl::{On, is_standard};

/// A machine with its layout, and the operations that may be left to modules.
#[derive(Clone, Copy)]
pub struct At<'a> {
    pub on: &'a On<'a>,
    /// For each number of an operation whether it may be left.
    pub leaves: &'a [bool],
}

/// What a division gives, by its name.
pub fn kind_of(name: &[u8]) -> Option<Kind>
    ensures { result ≡ l.kind_of name.now }
{
    if name == b"divu".as_slice() {
        Some(Kind::Quotient)
    } else if name == b"remu".as_slice() {
        Some(Kind::Remainder)
    } else {
        None
    }
}

/// Whether an operation may be left to a module, by its name.
fn may_be_left(name: &[u8]) -> bool
    ensures { result ≡ l.may_be_left name.now }
{
    kind_of(name).is_some() || !is_standard(name)
}

/// Whether the operation of a number may be left.
fn tells(units: &UnitSet, id: OpId) -> bool
    requires { id.0 < length (stated unit_meaning units.now).names }
    ensures { let U = stated unit_meaning units.now in
        result ≡ l.may_be_left (slice_index_or U.names id.0 []) }
{
    may_be_left(units.name(id).as_bytes())
}

/// For each number of an operation whether it may be left.
pub fn leaves_of(alloc: Global, units: &UnitSet) -> Result<Vec<bool>, AllocError>
    ensures { let U = stated unit_meaning units.now in
        IfOk result (λ v. v.items ≡ map l.may_be_left U.names) }
{
    let mut leaves = Vec::new(alloc);
    for op in 0..units.len() {
        let told = tells(units, OpId(op as u32));
        leaves.push(told)?;
    }
    Ok(leaves)
}

/// What a list tells of the operation of a number.
fn told_by(test: &[bool], op: u32) -> bool
    ensures { result ≡ l.told_by test.now op }
{
    match test.get(op as usize) {
        None => false,
        Some(told) => *told,
    }
}

/// Whether an operation is left to a module.
pub fn is_left(at: &At<'_>, o: UnitOp) -> bool
    ensures { result ≡ b.is_left at.now.on.now.m.now (l.told_by at.now.leaves.now) o }
{
    match o.op {
        Op::Set(id) => told_by(at.leaves, id.0) && 1 < o.latency,
        Op::Ldw | Op::Stw | Op::Ldf | Op::Stf | Op::Out | Op::Take => false,
    }
}

/// What an operation is called, and no bytes for one that has no name.
pub fn op_name(units: &UnitSet, op: Op) -> &[u8]
    ensures { result.now ≡ l.op_name (stated unit_meaning units.now) op }
{
    match op {
        Op::Set(id) => name_at(units, id),
        Op::Ldw | Op::Stw | Op::Ldf | Op::Stf | Op::Out | Op::Take => b"",
    }
}

/// The name of the operation of a number, and no bytes where there is none.
fn name_at(units: &UnitSet, id: OpId) -> &[u8]
    ensures { result.now ≡ slice_index_or (stated unit_meaning units.now).names id.0 [] }
{
    if id.0 as usize >= units.len() {
        return b"";
    }
    units.name(id).as_bytes()
}
