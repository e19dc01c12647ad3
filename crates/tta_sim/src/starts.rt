//! The operations that start in a cycle.

ghost use Rattle.std.specs.Prelude.{◌≡◌, ◌<◌, if◌then◌else◌};
ghost use Rattle.std.specs.List.{list_any};
ghost use Rattle.tta_arch.specs.Effects.{has_result, lacks_operand, takes};
ghost use Rattle.tta_sim.specs.Starts.{clashes_at, is_loud_op, is_stopped};

use crate::fault::{CLASHING_RESULTS, MISSING_OPERAND};
use crate::results::Results;
use std::marker::Model;
use tta_arch::{Op, UnitOp};

/// An operation that starts: its unit, its operand where there is one, and the moved word.
#[derive(Clone, Copy)]
pub struct Start {
    pub unit: u8,
    pub does: UnitOp,
    pub operand: Option<u32>,
    pub word: u32,
}

impl Model for Start {
    ghost use Rattle.tta_arch.specs.Effects.{Start};

    ghost Value = { Start };

    ghost view = { λ t. record {
      unit = t.unit;
      does = t.does;
      operand = t.operand;
      word = t.word;
    } };

    ghost inverse = { λ t. record {
      unit = t.unit;
      does = t.does;
      operand = t.operand;
      word = t.word;
    } };
}

/// Whether an operation does more than show a result of words that the machine has: it stores its
/// word, outputs it, or takes one of the input.
pub fn is_loud(op: Op) -> bool
    ensures { result ≡ is_loud_op op }
{
    match op {
        Op::Stw | Op::Stf | Op::Out | Op::Take => true,
        Op::Ldw | Op::Ldf | Op::Set(_) => false,
    }
}

/// Whether a unit's result of an operation would be due at the time of another one.
#[inline(always)]
pub fn clashes(results: &Results<'_>, unit: u8, does: &UnitOp) -> bool
    requires { unit < results.now.units }
    ensures { result ≡ clashes_at results.now unit does.now }
{
    results.clashes(unit, does.latency) && does.op.has_result()
}

/// Whether an operation cannot start: it lacks its operand, or its result would be due at the time of
/// another one of its unit.
#[inline(always)]
pub fn stops(results: &Results<'_>, start: &Start) -> bool
    requires { start.now.unit < results.now.units }
    ensures { result ≡ is_stopped results.now start.now }
{
    start.operand.is_none() || clashes(results, start.unit, &start.does)
}

/// Whether some of the operations takes a word of the input.
#[inline(always)]
pub fn any_takes(starts: &[Start]) -> bool
    ensures { result ≡ list_any takes starts.now }
{
    for start in starts {
        if let Op::Take = start.does.op {
            return true;
        }
    }
    false
}

/// Whether some operation lacks its operand.
fn lack_operand(starts: &[Start]) -> bool
    ensures { result ≡ list_any lacks_operand starts.now }
{
    for start in starts {
        if start.operand.is_none() {
            return true;
        }
    }
    false
}

/// The fault of operations some of which cannot start: 62 where one lacks its operand, and else 63,
/// since two results of a unit would be due at one time.
pub fn fault_of(starts: &[Start]) -> u8
    ensures { result ≡ (if list_any lacks_operand starts.now then 62 else 63) }
{
    if lack_operand(starts) {
        MISSING_OPERAND
    } else {
        CLASHING_RESULTS
    }
}
