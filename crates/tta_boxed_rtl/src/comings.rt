//! What results are due, and what the result ports become.

ghost use Rattle.std.specs.Prelude.{◌≡◌, ◌+◌, ◌<◌, ◌≤◌, ◌++◌, map, filter, length};
ghost use Rattle.std.specs.Prelude.{OnOk};
ghost use Rattle.std.specs.List.{enumerate_from, flat_map};
ghost use Rattle.tta_boxed.specs.Boxed as b;
ghost use Rattle.tta_boxed_rtl.specs.Left.{told_by};
ghost use Rattle.tta_boxed_rtl.specs.Texts as x;
ghost use Rattle.tta_circuit.specs.Circuit as c;
ghost use Rattle.tta_hardware.specs.Chains.{first_of};
ghost use Rattle.tta_hardware.specs.Signals as s;
ghost use Rattle.tta_hardware.specs.Wires as w;
ghost use Rattle.tta_names.specs.Names.{text_of};
ghost use Rattle.tta_rtl.specs.Texts.{tested};

use crate::at::{At, is_left};
use std::alloc::AllocError;
use tta_arch::UnitOp;
use tta_names::{push_from_name, push_made_name};
use tta_offers::{longest, ops_at};
use tta_rtl::{
    OpWord, UnitWord, push_begins, push_coming, push_fresh, push_is_coming, push_new, push_op_word,
    push_result, push_test, push_unit_word, shows_in,
};
use tta_verilog::{push_constant, push_text};

/// Puts the word that an operation shows; one that is left to a module has none yet.
fn push_kept_result(out: &mut Vec<u8>, at: &At<'_>, unit: u8, o: UnitOp) -> Result<(), AllocError>
    ensures { let M = at.now.on.now.m.now in let L = told_by at.now.leaves.now in
        OnOk result (out.new.items ≡ out.old.items ++ text_of M (b.kept_result M L unit o)) }
{
    if is_left(at, o) {
        push_constant(out, 32, 0)
    } else {
        push_result(out, at.on, unit, o)
    }
}

/// Puts the word of an operation, after the test whether it starts, if it shows its result after so many
/// cycles.
#[tactic(auto, unfolding(tta_rtl::specs::Texts::tested, tta_rtl::specs::Texts::choice_start, crate::specs::Texts::kept_choice))]
fn push_kept_choice(
    out: &mut Vec<u8>,
    at: &At<'_>,
    unit: u8,
    latency: u8,
    op: u8,
    o: UnitOp,
) -> Result<(), AllocError>
    ensures { let M = at.now.on.now.m.now in let L = told_by at.now.leaves.now in
        OnOk result (out.new.items ≡ out.old.items ++ x.kept_choice M L unit latency (op, o)) }
{
    if !shows_in(o, latency) {
        return Ok(());
    }
    push_test(out, at.on.m, OpWord::Starts, unit, op)?;
    push_kept_result(out, at, unit, o)?;
    push_text(out, b"):")
}

/// Puts the same for some operations, these being those of the unit from one on.
fn push_kept_from(
    out: &mut Vec<u8>,
    at: &At<'_>,
    unit: u8,
    latency: u8,
    op: u8,
    ops: &[UnitOp],
) -> Result<(), AllocError>
    requires few { op + length ops.now ≤ 255 }
    ensures { let M = at.now.on.now.m.now in let L = told_by at.now.leaves.now in
        OnOk result (out.new.items ≡ out.old.items
        ++ flat_map (x.kept_choice M L unit latency) (enumerate_from op ops.now)) }
{
    match ops {
        [] => Ok(()),
        [o, rest @ ..] => {
            push_kept_choice(out, at, unit, latency, op, *o)?;
            push_kept_from(out, at, unit, latency, op + 1, rest)
        }
    }
}

/// Puts the word that the operation of a unit shows which starts, of those whose results show after so
/// many cycles.
fn push_kept_made(out: &mut Vec<u8>, at: &At<'_>, unit: u8, latency: u8) -> Result<(), AllocError>
    ensures { let M = at.now.on.now.m.now in let L = told_by at.now.leaves.now in
        OnOk result (out.new.items ≡ out.old.items ++ text_of M (b.kept_made M L unit latency)) }
{
    push_kept_from(out, at, unit, latency, 0, ops_at(at.on.m, unit))?;
    push_constant(out, 32, 0)
}

/// Puts the word of a result that is due in so many cycles, at the next clock.
#[tactic(auto, unfolding(tta_verilog::specs::Expressions::choice))]
pub fn push_due_next(out: &mut Vec<u8>, at: &At<'_>, unit: u8, delay: u8) -> Result<(), AllocError>
    requires later { delay < 255 }
    ensures { let M = at.now.on.now.m.now in let L = told_by at.now.leaves.now in
        OnOk result (out.new.items ≡ out.old.items ++ text_of M (x.due_next M L unit delay)) }
{
    push_text(out, b"(")?;
    push_begins(out, at.on, unit, delay + 1)?;
    push_text(out, b")?(")?;
    push_kept_made(out, at, unit, delay + 1)?;
    push_text(out, b"):")?;
    push_coming(out, at.on, unit, delay + 1)
}

/// Puts whether the next result of a unit is that of an operation, as the test of a choice.
#[tactic(auto, unfolding(tta_rtl::specs::Texts::tested))]
fn push_is_next(out: &mut Vec<u8>, at: &At<'_>, unit: u8, op: u8) -> Result<(), AllocError>
    ensures { let M = at.now.on.now.m.now in
        OnOk result (out.new.items ≡ out.old.items
        ++ tested (text_of M (c.Signal (s.Boxes (s.IsFrom unit op 1))))) }
{
    push_text(out, b"(")?;
    push_from_name(out, at.on.m, unit, op, 1)?;
    push_text(out, b")?(")
}

/// Puts what modules show of these operations of a unit from one on, each after the test whether the next
/// result is its, and else the word that is due.
#[tactic(auto, unfolding(tta_rtl::specs::Texts::tested, tta_verilog::specs::Expressions::choice))]
fn push_shown_from(
    out: &mut Vec<u8>,
    at: &At<'_>,
    unit: u8,
    op: u8,
    ops: &[UnitOp],
) -> Result<(), AllocError>
    requires few { op + length ops.now ≤ 255 }
    ensures { let M = at.now.on.now.m.now in let L = told_by at.now.leaves.now in
        OnOk result (out.new.items ≡ out.old.items ++ text_of M
        (first_of (map (λ o. (
          c.Signal (s.Boxes (s.IsFrom unit o.0 1)),
          c.Signal (s.Boxes (s.Shows unit o.0)),
        ))
        (filter (λ o. b.is_left M L o.1) (enumerate_from op ops.now))) (c.Signal (s.Due unit 1)))) }
{
    match ops {
        [] => push_op_word(out, at.on.m, OpWord::Due, unit, 1),
        [o, rest @ ..] => {
            if !is_left(at, *o) {
                return push_shown_from(out, at, unit, op + 1, rest);
            }
            push_is_next(out, at, unit, op)?;
            push_made_name(out, at.on.m, unit, op)?;
            push_text(out, b"):")?;
            push_shown_from(out, at, unit, op + 1, rest)
        }
    }
}

/// Puts the word that modules show of the next result of a unit, and else the word that is due.
fn push_shown(out: &mut Vec<u8>, at: &At<'_>, unit: u8) -> Result<(), AllocError>
    ensures { let M = at.now.on.now.m.now in let L = told_by at.now.leaves.now in
        OnOk result (out.new.items ≡ out.old.items
        ++ text_of M (first_of (b.shown M L unit) (c.Signal (s.Due unit 1)))) }
{
    push_shown_from(out, at, unit, 0, ops_at(at.on.m, unit))
}

/// Puts that, or the word of a load that began at the clock before and is due at the same time.
fn push_fresh_shown(out: &mut Vec<u8>, at: &At<'_>, unit: u8) -> Result<(), AllocError>
    ensures { let M = at.now.on.now.m.now in let L = told_by at.now.leaves.now in
        OnOk result (out.new.items ≡ out.old.items ++ text_of M
        (w.fresh M unit 2 (first_of (b.shown M L unit) (c.Signal (s.Due unit 1))))) }
{
    push_fresh(out, at.on, unit, 2)?;
    push_shown(out, at, unit)
}

/// Puts the next result of a unit.
fn push_coming_next(out: &mut Vec<u8>, at: &At<'_>, unit: u8) -> Result<(), AllocError>
    ensures { let M = at.now.on.now.m.now in let L = told_by at.now.leaves.now in
        OnOk result (out.new.items ≡ out.old.items ++ text_of M (b.coming_next M L unit)) }
{
    if 1 < longest(at.on.m, unit) {
        push_fresh_shown(out, at, unit)
    } else {
        push_constant(out, 32, 0)
    }
}

/// Puts what the result port of a unit becomes.
#[tactic(auto, unfolding(tta_rtl::specs::Texts::choice_start, tta_verilog::specs::Expressions::choice))]
pub fn push_port_next(out: &mut Vec<u8>, at: &At<'_>, unit: u8) -> Result<(), AllocError>
    ensures { let M = at.now.on.now.m.now in let L = told_by at.now.leaves.now in
        OnOk result (out.new.items ≡ out.old.items ++ text_of M (x.port_next M L unit)) }
{
    push_new(out, at.on, unit, 1)?;
    push_text(out, b"(")?;
    push_is_coming(out, at.on, unit, 1)?;
    push_text(out, b")?(")?;
    push_coming_next(out, at, unit)?;
    push_text(out, b"):")?;
    push_unit_word(out, at.on.m, UnitWord::Shown, unit)
}
