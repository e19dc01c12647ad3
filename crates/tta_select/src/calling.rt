//! Operations by their names, and where they are offered.

ghost use Rattle.std.specs.Prelude.{◌≡◌};
ghost use Rattle.tta_ops.specs.Set.{stated};
ghost use Rattle.tta_program.specs.Over.{test_name};
ghost use Rattle.tta_select.specs.Select.{test_op, no_call, call_of};

use tta_arch::{Machine, Op, UnitOp};
use tta_connect::{Call, Choice, offered};
use tta_ops::{OpId, UnitSet};
use tta_program::Rel;

/// The name of the operation that a condition asks.
fn test_name(rel: Rel) -> &'static str
    ensures { result.now ≡ test_name rel }
{
    match rel {
        Rel::Eq | Rel::Ne => "eq",
        Rel::Lt | Rel::Ge => "lt",
        Rel::Ltu | Rel::Geu => "ltu",
    }
}

/// The operation of a condition; where the units have none of its name, one that nothing offers.
pub fn test_op(units: &UnitSet, rel: Rel) -> Op
    ensures { result ≡ test_op (stated unit_meaning units.now) rel }
{
    match units.find(test_name(rel)) {
        Some(op) => Op::Set(op),
        None => Op::Set(OpId(65536)),
    }
}

/// What stands for an operation that no usable unit offers.
pub fn no_call(op: Op) -> Call
    ensures { result ≡ no_call op }
{
    let does = UnitOp {
        op,
        arity: 1,
        latency: 1,
    };
    Call {
        unit: 32,
        op: 0,
        does,
    }
}

/// The first usable unit's operation of a kind.
pub fn call_of(m: &Machine, c: &Choice, op: Op) -> Call
    ensures { result ≡ call_of m.now c.now op }
{
    match offered(m, c.usable, op) {
        Some(f) => f,
        None => no_call(op),
    }
}
