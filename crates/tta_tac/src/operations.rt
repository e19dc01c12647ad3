//! The operations that lines ask for.

ghost use Rattle.std.specs.Prelude.{◌≡◌, ◌==◌, false, not, is_none, Ok, length};
ghost use Rattle.std.specs.Option.{option_map_or};
ghost use Rattle.tta_parse.specs.Steps.{refuse_if};
ghost use Rattle.tta_ops.specs.Set.{stated};
ghost use Rattle.tta_ops.specs.Units.{named};
ghost use Rattle.tta_program.specs.Over.{test_name};
ghost use Rattle.tta_tac.specs.FirstPass.{lacks_op, has_wrong_arity, op_id, arity_of};
ghost use Rattle.tta_tac.specs.Seen.{form_seen, operands_seen};
ghost use Rattle.tta_tac.specs.declared.refusal.Refusal.TheVariants.{UnknownOp, Arity};

use crate::forms::{Form, Operands};
use crate::refusal::Refusal;
use tta_ops::{OpId, UnitSet};
use tta_program::Rel;

/// Tests the operation of a line. It is refused as `UnknownOp` where no unit offers it, and as
/// `Arity` where it takes another number of words.
pub fn check_op(units: &UnitSet, form: &Form) -> Result<(), Refusal>
    ensures { let U = stated unit_meaning units.now in
        result ≡ refuse_if (lacks_op U (form_seen form.now)) UnknownOp
        (refuse_if (has_wrong_arity U (form_seen form.now)) Arity (Ok tt)) }
{
    match *form {
        Form::Apply { op, operands, .. } => check_offer(units, op, operand_count(operands)),
        Form::If { rel, .. } => check_offer(units, relation_name(rel), 2),
        Form::When { rel, .. } => check_offer(units, relation_name(rel), 2),
        _ => Ok(()),
    }
}

/// Tests that a unit offers an operation of this name that takes so many words.
fn check_offer(units: &UnitSet, name: &[u8], words: u8) -> Result<(), Refusal>
    ensures { let U = stated unit_meaning units.now in
        let op = named U name.now in
        let differs = option_map_or (λ op. not (arity_of U op == words)) op false in
        result ≡ refuse_if (is_none op) UnknownOp (refuse_if differs Arity (Ok tt)) }
{
    match units.find_bytes(name) {
        None => Err(Refusal::UnknownOp),
        Some(op) => {
            if units.arity(op) == words {
                Ok(())
            } else {
                Err(Refusal::Arity)
            }
        }
    }
}

/// How many operands stand there.
fn operand_count(operands: Operands) -> u8
    ensures { result ≡ length (operands_seen operands.entry) }
{
    match operands {
        Operands::One(_) => 1,
        Operands::Two(_, _) => 2,
    }
}

/// The operation that a relation rests on.
fn relation_name(rel: Rel) -> &'static [u8]
    ensures { result.now ≡ test_name rel }
{
    match rel {
        Rel::Eq => b"eq",
        Rel::Ne => b"eq",
        Rel::Lt => b"lt",
        Rel::Ge => b"lt",
        Rel::Ltu => b"ltu",
        Rel::Geu => b"ltu",
    }
}

/// The operation of a name that a unit offers.
pub fn op_named(units: &UnitSet, name: &[u8]) -> OpId
    ensures { result ≡ op_id (stated unit_meaning units.now) name.now }
{
    match units.find_bytes(name) {
        Some(op) => op,
        None => OpId(0),
    }
}
