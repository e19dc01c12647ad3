//! Whose a result is that is due: at the start of its operation, and a cycle later.

ghost use Rattle.std.specs.Prelude.{◌≡◌, ◌+◌, ◌<◌, ◌≤◌, ◌==◌, ◌&&◌, ◌++◌, map, filter, length};
ghost use Rattle.std.specs.Prelude.{if◌then◌else◌, nat_lt, OnOk};
ghost use Rattle.std.specs.List.{enumerate_from};
ghost use Rattle.tta_arch.specs.Effects.{has_result};
ghost use Rattle.tta_boxed.specs.Boxed as b;
ghost use Rattle.tta_boxed_rtl.specs.Left.{told_by};
ghost use Rattle.tta_boxed_rtl.specs.Texts as x;
ghost use Rattle.tta_circuit.specs.Circuit as c;
ghost use Rattle.tta_hardware.specs.Chains.{first_of};
ghost use Rattle.tta_hardware.specs.Signals as s;
ghost use Rattle.tta_hardware.specs.Wires as w;
ghost use Rattle.tta_names.specs.Names.{text_of};

use crate::at::At;
use crate::left::Left;
use std::alloc::AllocError;
use tta_arch::UnitOp;
use tta_names::push_from_name;
use tta_offers::ops_at;
use tta_rtl::{OpWord, loads_in, push_begins, push_test, shows_in};
use tta_verilog::{push_constant, push_text};

/// Puts whether the operation that starts is the one that is left, of these of its unit from one on,
/// whose results show after as many cycles.
#[tactic(auto, unfolding(tta_rtl::specs::Texts::tested, tta_verilog::specs::Expressions::choice))]
fn push_picked_from(
    out: &mut Vec<u8>,
    at: &At<'_>,
    l: Left,
    op: u8,
    ops: &[UnitOp],
) -> Result<(), AllocError>
    requires few { op + length ops.now ≤ 255 }
    ensures { let M = at.now.on.now.m.now in
        OnOk result (out.new.items ≡ out.old.items ++ text_of M
        (first_of (map (λ o. (
          c.Signal (s.Starts l.unit o.0),
          c.Const 1 (if o.0 == l.op then 1 else 0),
        ))
        (filter (λ o. has_result o.1.op && o.1.latency == l.o.latency) (enumerate_from op ops.now)))
        w.never)) }
{
    match ops {
        [] => push_constant(out, 1, 0),
        [o, rest @ ..] => {
            if !shows_in(*o, l.o.latency) {
                return push_picked_from(out, at, l, op + 1, rest);
            }
            push_test(out, at.on.m, OpWord::Starts, l.unit, op)?;
            push_constant(out, 1, if op == l.op { 1 } else { 0 })?;
            push_text(out, b"):")?;
            push_picked_from(out, at, l, op + 1, rest)
        }
    }
}

/// Puts whether the operation that starts is the one that is left, if that shows its result in a cycle
/// more than so many.
fn push_picked(out: &mut Vec<u8>, at: &At<'_>, l: Left, delay: u8) -> Result<(), AllocError>
    requires later { delay < 255 }
    ensures { let M = at.now.on.now.m.now in let L = told_by at.now.leaves.now in
        OnOk result (out.new.items ≡ out.old.items ++ text_of M (if l.o.latency == delay + 1
        then b.is_picked M L l.unit l.op l.o.latency else w.never)) }
{
    if l.o.latency != delay + 1 {
        return push_constant(out, 1, 0);
    }
    push_picked_from(out, at, l, 0, ops_at(at.on.m, l.unit))
}

/// Puts whether what is due in so many cycles was the operation's a cycle before, where none of these
/// loads of its unit from one on began then that has its word now.
#[tactic(auto, unfolding(tta_rtl::specs::Texts::tested, tta_verilog::specs::Expressions::choice))]
fn push_was_from(
    out: &mut Vec<u8>,
    at: &At<'_>,
    l: Left,
    delay: u8,
    op: u8,
    ops: &[UnitOp],
) -> Result<(), AllocError>
    requires later { delay < 255 }
    requires few { op + length ops.now ≤ 255 }
    ensures { let M = at.now.on.now.m.now in
        OnOk result (out.new.items ≡ out.old.items ++ text_of M
        (first_of (map (λ o. (c.Signal (s.HasBegun l.unit o.0), w.never))
        (filter (λ o. w.is_load o.1.op && o.1.latency == delay + 1) (enumerate_from op ops.now)))
        (c.Signal (s.Boxes (s.IsFrom l.unit l.op delay))))) }
{
    match ops {
        [] => push_from_name(out, at.on.m, l.unit, l.op, delay),
        [o, rest @ ..] => {
            if !loads_in(*o, delay + 1) {
                return push_was_from(out, at, l, delay, op + 1, rest);
            }
            push_test(out, at.on.m, OpWord::Began, l.unit, op)?;
            push_constant(out, 1, 0)?;
            push_text(out, b"):")?;
            push_was_from(out, at, l, delay, op + 1, rest)
        }
    }
}

/// Puts whether what is due in so many cycles was the operation's a cycle before, if it can be.
fn push_was(out: &mut Vec<u8>, at: &At<'_>, l: Left, delay: u8) -> Result<(), AllocError>
    ensures { let M = at.now.on.now.m.now in let L = told_by at.now.leaves.now in
        OnOk result (out.new.items ≡ out.old.items ++ text_of M (if nat_lt delay l.o.latency
        then b.was_from M L l.unit l.op delay else w.never)) }
{
    if delay >= l.o.latency {
        return push_constant(out, 1, 0);
    }
    push_was_from(out, at, l, delay, 0, ops_at(at.on.m, l.unit))
}

/// Puts whether what is due in so many cycles is the operation's, at a clock that carries an instruction
/// out.
#[tactic(auto, unfolding(tta_verilog::specs::Expressions::choice))]
fn push_from_next(out: &mut Vec<u8>, at: &At<'_>, l: Left, delay: u8) -> Result<(), AllocError>
    requires later { delay < 255 }
    ensures { let M = at.now.on.now.m.now in let L = told_by at.now.leaves.now in
        OnOk result (out.new.items ≡ out.old.items
        ++ text_of M (b.from_next M L l.unit l.op l.o.latency delay)) }
{
    push_text(out, b"(")?;
    push_begins(out, at.on, l.unit, delay + 1)?;
    push_text(out, b")?(")?;
    push_picked(out, at, l, delay)?;
    push_text(out, b"):")?;
    push_was(out, at, l, delay + 1)
}

/// Puts whether what is due in so many cycles is the operation's at the next clock, which may begin
/// anew.
#[tactic(auto, unfolding(tta_verilog::specs::Expressions::choice))]
pub fn push_from_becomes(
    out: &mut Vec<u8>,
    at: &At<'_>,
    l: Left,
    delay: u8,
) -> Result<(), AllocError>
    requires later { delay < 255 }
    ensures { let M = at.now.on.now.m.now in let L = told_by at.now.leaves.now in
        OnOk result (out.new.items ≡ out.old.items
        ++ text_of M (x.from_becomes M L l.unit l.op l.o.latency delay)) }
{
    push_text(out, b"(reset)?(")?;
    push_constant(out, 1, 0)?;
    push_text(out, b"):")?;
    push_from_next(out, at, l, delay)
}
