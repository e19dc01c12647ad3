//! The depths of operations.

ghost use Rattle.std.specs.Prelude.{◌≡◌, IfOk};
ghost use Rattle.tta_cost.specs.Operations as o;
ghost use Rattle.tta_ops.specs.Set.{stated};

use std::alloc::{AllocError, Global};
use tta_measure::{EQUAL, GATE, PRODUCT, QUOTIENT, SHIFT, SUM};
use tta_ops::{OpId, UnitSet};

/// Whether an operation goes bit by bit.
fn is_gate(name: &[u8]) -> bool
    ensures { result ≡ o.is_gate name.now }
{
    name == b"and".as_slice()
        || name == b"or".as_slice()
        || name == b"xor".as_slice()
        || name == b"not".as_slice()
}

/// Whether it tells equal words.
fn is_equality(name: &[u8]) -> bool
    ensures { result ≡ o.is_equality name.now }
{
    name == b"eq".as_slice() || name == b"ne".as_slice()
}

/// Whether it shifts.
fn is_shift(name: &[u8]) -> bool
    ensures { result ≡ o.is_shift name.now }
{
    name == b"shl".as_slice() || name == b"shr".as_slice() || name == b"shru".as_slice()
}

/// Whether it multiplies.
fn is_product(name: &[u8]) -> bool
    ensures { result ≡ o.is_product name.now }
{
    name == b"mul".as_slice() || name == b"mulhu".as_slice()
}

/// Whether it divides.
fn is_quotient(name: &[u8]) -> bool
    ensures { result ≡ o.is_quotient name.now }
{
    name == b"divu".as_slice() || name == b"remu".as_slice()
}

/// The depth of an operation, by its name.
fn operation_depth(name: &[u8]) -> u64
    ensures { result ≡ o.operation_depth name.now }
{
    if is_gate(name) {
        GATE
    } else if is_equality(name) {
        EQUAL
    } else if is_shift(name) {
        SHIFT
    } else if is_product(name) {
        PRODUCT
    } else if is_quotient(name) {
        QUOTIENT
    } else {
        SUM
    }
}

/// The depths of all operations, by their numbers.
pub fn operation_depths(alloc: Global, units: &UnitSet) -> Result<Vec<u64>, AllocError>
    ensures { let U = stated unit_meaning units.now in
        IfOk result (λ v. v.items ≡ o.operation_depths U) }
{
    let mut depths = Vec::new(alloc);
    for op in 0..units.len() {
        depths.push(operation_depth(units.name(OpId(op as u32)).as_bytes()))?;
    }
    Ok(depths)
}
