//! What the parts of a machine and the operations of its units are called.

ghost use Rattle.std.specs.Prelude.{◌≡◌};
ghost use Rattle.tta_ops.specs.Set.{stated};
ghost use Rattle.tta_disasm.specs.Canonical.{file_name, imm_name, unit_name, template_name};
ghost use Rattle.tta_disasm.specs.Canonical.{op_name, op_name_at};
ghost use Rattle.tta_arch.specs.declared.parts.Op.TheVariants.{Set};

use tta_arch::{Machine, Op};
use tta_ops::{OpId, UnitSet};

/// The name of a file, and no bytes where the machine has no such file.
pub fn file_name(m: &Machine, file: u8) -> &[u8]
    ensures { result.now ≡ file_name m.now file }
{
    match m.files.as_slice().get(usize::from(file)) {
        None => b"",
        Some(f) => f.name.as_bytes(),
    }
}

/// The name of an immediate unit, and no bytes where the machine has no such unit.
pub fn imm_name(m: &Machine, unit: u8) -> &[u8]
    ensures { result.now ≡ imm_name m.now unit }
{
    match m.imms.as_slice().get(usize::from(unit)) {
        None => b"",
        Some(i) => i.name.as_bytes(),
    }
}

/// The name of a unit, and no bytes where the machine has no such unit.
pub fn unit_name(m: &Machine, unit: u8) -> &[u8]
    ensures { result.now ≡ unit_name m.now unit }
{
    match m.units.as_slice().get(usize::from(unit)) {
        None => b"",
        Some(u) => u.name.as_bytes(),
    }
}

/// The name of a template, and no bytes where the machine has no such template.
pub fn template_name(m: &Machine, template: u8) -> &[u8]
    ensures { result.now ≡ template_name m.now template }
{
    match m.templates.as_slice().get(usize::from(template)) {
        None => b"",
        Some(t) => t.name.as_bytes(),
    }
}

/// What an operation of the set of units is called, and no bytes where the set has no such
/// operation.
fn set_name(units: &UnitSet, op: OpId) -> &[u8]
    ensures { result.now ≡ op_name (stated unit_meaning units.now) (Set op) }
{
    if (op.0 as usize) < units.len() {
        units.name(op).as_bytes()
    } else {
        b""
    }
}

/// What an operation is called, and no bytes where the set of units has no such operation.
pub fn op_name(units: &UnitSet, op: Op) -> &[u8]
    ensures { result.now ≡ op_name (stated unit_meaning units.now) op }
{
    match op {
        Op::Ldw => b"ldw",
        Op::Stw => b"stw",
        Op::Ldf => b"ldf",
        Op::Stf => b"stf",
        Op::Out => b"out",
        Op::Take => b"in",
        Op::Set(id) => set_name(units, id),
    }
}

/// What an operation of a unit is called, and no bytes where there is none.
pub fn op_name_at<'u>(units: &'u UnitSet, m: &Machine, unit: u8, op: u8) -> &'u [u8]
    ensures { result.now ≡ op_name_at (stated unit_meaning units.now) m.now unit op }
{
    let Some(u) = m.units.as_slice().get(usize::from(unit)) else {
        return b"";
    };
    match u.ops.as_slice().get(usize::from(op)) {
        None => b"",
        Some(o) => op_name(units, o.op),
    }
}
