//! The wires of units that tell what their operations find: no operand, or another result at their end.

ghost use Rattle.std.specs.Prelude.{◌≡◌, ◌+◌, ◌≤◌, ◌==◌, ◌&&◌, ◌++◌, nat_lt, OnOk};
ghost use Rattle.std.specs.Prelude.{map, filter, length};
ghost use Rattle.std.specs.List.{flat_map, enumerate_from, range_with_len};
ghost use Rattle.tta_arch.specs.Effects.{has_result};
ghost use Rattle.tta_arch.specs.Fields.{numbers};
ghost use Rattle.tta_circuit.specs.Circuit as c;
ghost use Rattle.tta_hardware.specs.Chains.{any_of};
ghost use Rattle.tta_hardware.specs.Signals as s;
ghost use Rattle.tta_hardware.specs.Wires as w;
ghost use Rattle.tta_names.specs.Names.{text_of, watch_name};
ghost use Rattle.tta_trap.specs.Watches as t;
ghost use Rattle.tta_trap_rtl.specs.Texts.{bit_text, finding_at, made, no_operand, two_start, unit_text};

use std::alloc::AllocError;
use tta_arch::{Dest, Machine, Unit, UnitOp};
use tta_names::{Place, Watch, push_watch};
use tta_offers::{longest, ops_at};
use tta_rtl::{On, OpWord, push_is_coming, push_op_word, push_reached};
use tta_verilog::{push_constant, push_range, push_text};

/// What an operation finds that is a fault.
#[derive(Clone, Copy)]
pub enum Finding {
    /// Its operand port has had no word.
    Operand,
    /// Another result of the unit is due when its own is.
    Clash,
}

/// Whether an operation's result is due sooner than that of the longest operation of its unit can be.
fn ends_sooner(o: UnitOp, longest: u8) -> bool
    ensures { result ≡ (has_result o.op && nat_lt o.latency longest) }
{
    o.op.has_result() && o.latency < longest
}

/// Puts whether an operation of two words starts in a unit, of these from one on.
#[tactic(auto, unfolding(tta_verilog::specs::Expressions::between))]
fn push_two_from(
    out: &mut Vec<u8>,
    on: &On<'_>,
    unit: u8,
    op: u8,
    ops: &[UnitOp],
) -> Result<(), AllocError>
    requires few { op + length ops.now ≤ 255 }
    ensures { OnOk result (out.new.items ≡ out.old.items ++ text_of on.now.m.now
        (any_of (map (λ o. c.Signal (s.Starts unit o.0))
        (filter (λ o. o.1.arity == 2) (enumerate_from op ops.now))))) }
{
    match ops {
        [] => push_constant(out, 1, 0),
        [o, rest @ ..] => {
            if o.arity != 2 {
                return push_two_from(out, on, unit, op + 1, rest);
            }
            push_text(out, b"(")?;
            push_op_word(out, on.m, OpWord::Starts, unit, op)?;
            push_text(out, b")||(")?;
            push_two_from(out, on, unit, op + 1, rest)?;
            push_text(out, b")")
        }
    }
}

/// Puts whether an operation of two words starts in a unit.
fn push_two(out: &mut Vec<u8>, on: &On<'_>, unit: u8) -> Result<(), AllocError>
    ensures { let M = on.now.m.now in
        OnOk result (out.new.items ≡ out.old.items ++ text_of M (two_start M unit)) }
{
    push_two_from(out, on, unit, 0, ops_at(on.m, unit))
}

/// Puts whether the operand port of a unit has had no word and gets none.
#[tactic(auto, unfolding(tta_verilog::specs::Expressions::between, tta_verilog::specs::Expressions::negated))]
fn push_no_operand(out: &mut Vec<u8>, on: &On<'_>, unit: u8) -> Result<(), AllocError>
    ensures { let M = on.now.m.now in
        OnOk result (out.new.items ≡ out.old.items ++ text_of M (no_operand M unit)) }
{
    push_text(out, b"!((")?;
    push_reached(out, on, Dest::Operand { unit })?;
    push_text(out, b")||(")?;
    push_watch(out, on.m, Watch::HasWord(Place::Operand { unit }))?;
    push_text(out, b"))")
}

/// Puts whether an operation starts in a unit without its operand.
#[tactic(auto, unfolding(tta_verilog::specs::Expressions::between))]
fn push_operand_lacks(out: &mut Vec<u8>, on: &On<'_>, unit: u8) -> Result<(), AllocError>
    ensures { let M = on.now.m.now in
        OnOk result (out.new.items ≡ out.old.items ++ text_of M (t.operand_lacks M unit)) }
{
    push_text(out, b"(")?;
    push_two(out, on, unit)?;
    push_text(out, b")&&(")?;
    push_no_operand(out, on, unit)?;
    push_text(out, b")")
}

/// Puts whether an operation starts while another result of its unit is due when its own is.
#[tactic(auto, unfolding(tta_verilog::specs::Expressions::between))]
fn push_clash(
    out: &mut Vec<u8>,
    on: &On<'_>,
    unit: u8,
    op: u8,
    latency: u8,
) -> Result<(), AllocError>
    ensures { let M = on.now.m.now in OnOk result (out.new.items ≡ out.old.items ++ text_of M
        (c.Both (c.Signal (s.Starts unit op)) (w.is_coming M unit latency))) }
{
    push_text(out, b"(")?;
    push_op_word(out, on.m, OpWord::Starts, unit, op)?;
    push_text(out, b")&&(")?;
    push_is_coming(out, on, unit, latency)?;
    push_text(out, b")")
}

/// Puts whether one does so, of these operations of a unit from one on.
#[tactic(auto, unfolding(tta_verilog::specs::Expressions::between))]
fn push_clashes_from(
    out: &mut Vec<u8>,
    on: &On<'_>,
    unit: u8,
    op: u8,
    ops: &[UnitOp],
) -> Result<(), AllocError>
    requires few { op + length ops.now ≤ 255 }
    ensures { let M = on.now.m.now in
        OnOk result (out.new.items ≡ out.old.items ++ text_of M
        (any_of (map (λ o. c.Both (c.Signal (s.Starts unit o.0)) (w.is_coming M unit o.1.latency))
        (filter (λ o. has_result o.1.op && nat_lt o.1.latency (w.longest M unit))
        (enumerate_from op ops.now))))) }
{
    match ops {
        [] => push_constant(out, 1, 0),
        [o, rest @ ..] => {
            if !ends_sooner(*o, longest(on.m, unit)) {
                return push_clashes_from(out, on, unit, op + 1, rest);
            }
            push_text(out, b"(")?;
            push_clash(out, on, unit, op, o.latency)?;
            push_text(out, b")||(")?;
            push_clashes_from(out, on, unit, op + 1, rest)?;
            push_text(out, b")")
        }
    }
}

/// Puts whether an operation of a unit does so.
fn push_clashes(out: &mut Vec<u8>, on: &On<'_>, unit: u8) -> Result<(), AllocError>
    ensures { let M = on.now.m.now in
        OnOk result (out.new.items ≡ out.old.items ++ text_of M (t.clashing M unit)) }
{
    push_clashes_from(out, on, unit, 0, ops_at(on.m, unit))
}

/// Puts the name of the wire that tells it.
pub fn push_finding_at(
    out: &mut Vec<u8>,
    m: &Machine,
    finding: Finding,
    unit: u8,
) -> Result<(), AllocError>
    ensures { OnOk result
        (out.new.items ≡ out.old.items ++ watch_name m.now (finding_at finding unit)) }
{
    match finding {
        Finding::Operand => push_watch(out, m, Watch::LacksOperand { unit }),
        Finding::Clash => push_watch(out, m, Watch::Clashes { unit }),
    }
}

/// Puts what an operation of a unit finds that is a fault.
fn push_finding(
    out: &mut Vec<u8>,
    on: &On<'_>,
    unit: u8,
    finding: Finding,
) -> Result<(), AllocError>
    ensures { let M = on.now.m.now in OnOk result
        (out.new.items ≡ out.old.items ++ text_of M (made M (finding_at finding unit))) }
{
    match finding {
        Finding::Operand => push_operand_lacks(out, on, unit),
        Finding::Clash => push_clashes(out, on, unit),
    }
}

/// Puts the wire of that.
#[tactic(auto, unfolding(tta_verilog::specs::Circuits::wire_line, crate::specs::Texts::bit_text))]
fn push_finding_wire(
    out: &mut Vec<u8>,
    on: &On<'_>,
    unit: u8,
    finding: Finding,
) -> Result<(), AllocError>
    ensures { OnOk result
        (out.new.items ≡ out.old.items ++ bit_text on.now.m.now (finding_at finding unit)) }
{
    push_text(out, b"wire ")?;
    push_range(out, 1)?;
    push_finding_at(out, on.m, finding, unit)?;
    push_text(out, b" = ")?;
    push_finding(out, on, unit, finding)?;
    push_text(out, b";\n")
}

/// Puts the wires of units, from one on.
#[tactic(auto, unfolding(crate::specs::Texts::unit_text))]
fn push_findings_from(
    out: &mut Vec<u8>,
    on: &On<'_>,
    unit: u8,
    units: &[Unit],
) -> Result<(), AllocError>
    requires few { unit + length units.now ≤ 255 }
    ensures { OnOk result (out.new.items ≡ out.old.items
        ++ flat_map (unit_text on.now.m.now) (range_with_len unit (length units.now))) }
{
    match units {
        [] => Ok(()),
        [_, rest @ ..] => {
            push_finding_wire(out, on, unit, Finding::Operand)?;
            push_finding_wire(out, on, unit, Finding::Clash)?;
            push_findings_from(out, on, unit + 1, rest)
        }
    }
}

/// Puts the wires of all units.
pub fn push_unit_watches(out: &mut Vec<u8>, on: &On<'_>) -> Result<(), AllocError>
    ensures { let M = on.now.m.now in OnOk result (out.new.items ≡ out.old.items
        ++ flat_map (unit_text M) (numbers (length M.units))) }
{
    let m = on.m;
    push_findings_from(out, on, 0, m.units.as_slice())
}
