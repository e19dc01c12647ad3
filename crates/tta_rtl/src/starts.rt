//! Which operations start, where they stand, and what the signals of units are called.

ghost use Rattle.std.specs.Prelude.{◌≡◌, ◌++◌, map, OnOk};
ghost use Rattle.tta_arch.specs.Rules.{same_op};
ghost use Rattle.tta_circuit.specs.Circuit as c;
ghost use Rattle.tta_hardware.specs.Chains.{any_of, first_of};
ghost use Rattle.tta_hardware.specs.Signals as s;
ghost use Rattle.tta_hardware.specs.Wires as w;
ghost use Rattle.tta_names.specs.Names.{signal_name, text_of};
ghost use Rattle.tta_offers.specs.Offers.{places_of};
ghost use Rattle.tta_rtl.specs.Texts.{op_word, tested, unit_word};

use std::alloc::{AllocError, Global};
use tta_arch::{Machine, Op};
use tta_names::{push_of_op, push_of_unit};
use tta_offers::{OpAt, all_ops};
use tta_verilog::{push_constant, push_text};

/// A signal of a unit.
#[derive(Clone, Copy)]
pub enum UnitWord {
    /// The word in the operand port once this cycle's moves are made.
    Operand,
    /// The word that starts an operation.
    Trigger,
    /// The word that the result port shows.
    Shown,
    /// The word that the operand port keeps.
    Kept,
    /// The word that the result port keeps.
    Result,
}

/// A signal of a unit that has a number: that of an operation, or of cycles.
#[derive(Clone, Copy)]
pub enum OpWord {
    /// Whether the operation starts.
    Starts,
    /// Whether a load began at the clock before.
    Began,
    /// The word that a load has read.
    Raw,
    /// Whether the address of a load was inside its space.
    Inside,
    /// Whether a result is due in so many cycles.
    IsDue,
    /// The word that is due in so many cycles.
    Due,
}

/// Puts the name of a signal of a unit.
pub fn push_unit_word(
    out: &mut Vec<u8>,
    m: &Machine,
    word: UnitWord,
    unit: u8,
) -> Result<(), AllocError>
    ensures { OnOk result
        (out.new.items ≡ out.old.items ++ signal_name m.now (unit_word word unit)) }
{
    match word {
        UnitWord::Operand => push_of_unit(out, m, b"operand_", unit),
        UnitWord::Trigger => push_of_unit(out, m, b"trigger_", unit),
        UnitWord::Shown => push_of_unit(out, m, b"shown_", unit),
        UnitWord::Kept => push_of_unit(out, m, b"kept_", unit),
        UnitWord::Result => push_of_unit(out, m, b"result_", unit),
    }
}

/// Puts the name of a signal of a unit that has a number.
pub fn push_op_word(
    out: &mut Vec<u8>,
    m: &Machine,
    word: OpWord,
    unit: u8,
    n: u8,
) -> Result<(), AllocError>
    ensures { OnOk result
        (out.new.items ≡ out.old.items ++ signal_name m.now (op_word word unit n)) }
{
    match word {
        OpWord::Starts => push_of_op(out, m, b"start_", unit, n),
        OpWord::Began => push_of_op(out, m, b"began_", unit, n),
        OpWord::Raw => push_of_op(out, m, b"raw_", unit, n),
        OpWord::Inside => push_of_op(out, m, b"inside_", unit, n),
        OpWord::IsDue => push_of_op(out, m, b"due_", unit, n),
        OpWord::Due => push_of_op(out, m, b"coming_", unit, n),
    }
}

/// Puts such a signal as the test of a choice.
#[tactic(auto, unfolding(crate::specs::Texts::tested))]
pub fn push_test(
    out: &mut Vec<u8>,
    m: &Machine,
    word: OpWord,
    unit: u8,
    n: u8,
) -> Result<(), AllocError>
    ensures { OnOk result
        (out.new.items ≡ out.old.items ++ tested (signal_name m.now (op_word word unit n))) }
{
    push_text(out, b"(")?;
    push_op_word(out, m, word, unit, n)?;
    push_text(out, b")?(")
}

/// Puts whether one of some operations starts.
#[tactic(auto, unfolding(tta_verilog::specs::Expressions::between))]
pub fn push_some_start(out: &mut Vec<u8>, m: &Machine, ops: &[OpAt]) -> Result<(), AllocError>
    ensures { OnOk result (out.new.items ≡ out.old.items ++ text_of m.now
        (any_of (map (λ o. c.Signal (s.Starts o.0 o.1)) (places_of ops.now)))) }
{
    match ops {
        [] => push_constant(out, 1, 0),
        [o, rest @ ..] => {
            push_text(out, b"(")?;
            push_of_op(out, m, b"start_", o.unit, o.op)?;
            push_text(out, b")||(")?;
            push_some_start(out, m, rest)?;
            push_text(out, b")")
        }
    }
}

/// Puts a word of the unit of which one of some operations starts, and 0 where none does.
#[tactic(auto, unfolding(crate::specs::Texts::tested, tta_verilog::specs::Expressions::choice))]
pub fn push_word_of_start(
    out: &mut Vec<u8>,
    m: &Machine,
    word: UnitWord,
    ops: &[OpAt],
) -> Result<(), AllocError>
    ensures { OnOk result (out.new.items ≡ out.old.items ++ text_of m.now
        (first_of (map (λ o. (c.Signal (s.Starts o.0 o.1), c.Signal (unit_word word o.0)))
        (places_of ops.now)) w.nothing)) }
{
    match ops {
        [] => push_constant(out, 32, 0),
        [o, rest @ ..] => {
            push_test(out, m, OpWord::Starts, o.unit, o.op)?;
            push_unit_word(out, m, word, o.unit)?;
            push_text(out, b"):")?;
            push_word_of_start(out, m, word, rest)
        }
    }
}

/// Puts whether an operation starts, wherever units offer it.
pub fn push_starts(
    alloc: Global,
    out: &mut Vec<u8>,
    m: &Machine,
    wanted: Op,
) -> Result<(), AllocError>
    ensures { OnOk result (out.new.items ≡ out.old.items
        ++ text_of m.now (w.some_start m.now (same_op wanted))) }
{
    let ops = all_ops(alloc, m, wanted)?;
    push_some_start(out, m, ops.as_slice())
}

/// Puts a word of the unit where an operation starts, and 0 where it does not.
pub fn push_word_where(
    alloc: Global,
    out: &mut Vec<u8>,
    m: &Machine,
    wanted: Op,
    word: UnitWord,
) -> Result<(), AllocError>
    ensures { OnOk result (out.new.items ≡ out.old.items ++ text_of m.now
        (w.word_of_start m.now (same_op wanted) (λ unit. c.Signal (unit_word word unit)))) }
{
    let ops = all_ops(alloc, m, wanted)?;
    push_word_of_start(out, m, word, ops.as_slice())
}
