//! What the registers become that tell which places have had words, and whether the address is past all
//! addresses.

ghost use Rattle.std.specs.Prelude.{◌≡◌, ◌+◌, ◌≤◌, ◌++◌, map, length, OnOk};
ghost use Rattle.std.specs.List.{enumerate_from};
ghost use Rattle.tta_arch.specs.Effects.{KeptImm, KeptPort};
ghost use Rattle.tta_hardware.specs.Chains.{any_of};
ghost use Rattle.tta_names.specs.Names.{text_of};
ghost use Rattle.tta_names.specs.Watches.{place_of, watch_of};
ghost use Rattle.tta_trap.specs.Memory as k;
ghost use Rattle.tta_trap_rtl.specs.Texts as x;

use std::alloc::AllocError;
use tta_arch::{Dest, Machine, Template};
use tta_names::{Place, Watch, push_watch};
use tta_rtl::{
    On, push_begins, push_has_template, push_is_coming, push_leads, push_reached, writes,
};
use tta_verilog::{push_constant, push_text};

/// Puts whether the instruction has a template that writes a register of an immediate unit, of these from
/// one on.
#[tactic(auto, unfolding(tta_verilog::specs::Expressions::between))]
fn push_long_from(
    out: &mut Vec<u8>,
    on: &On<'_>,
    unit: u8,
    index: u8,
    template: u8,
    templates: &[Template],
) -> Result<(), AllocError>
    requires { template + length templates.now ≤ 255 }
    ensures { let M = on.now.m.now in OnOk result (out.new.items ≡ out.old.items ++ text_of M
        (any_of (map (λ l. l.0) (x.longs_of M unit index (enumerate_from template templates.now))))) }
{
    match templates {
        [] => push_constant(out, 1, 0),
        [t, rest @ ..] => {
            if !writes(t, unit, index) {
                return push_long_from(out, on, unit, index, template + 1, rest);
            }
            push_text(out, b"(")?;
            push_has_template(out, on, template)?;
            push_text(out, b")||(")?;
            push_long_from(out, on, unit, index, template + 1, rest)?;
            push_text(out, b")")
        }
    }
}

/// Puts whether a register of an immediate unit gets a word in this cycle.
fn push_long(out: &mut Vec<u8>, on: &On<'_>, unit: u8, index: u8) -> Result<(), AllocError>
    ensures { let M = on.now.m.now in OnOk result (out.new.items ≡ out.old.items
        ++ text_of M (k.gets M (KeptImm unit index))) }
{
    let m = on.m;
    push_long_from(out, on, unit, index, 0, m.templates.as_slice())
}

/// Puts whether the result port of a unit gets a word in this cycle.
#[tactic(auto, unfolding(tta_verilog::specs::Expressions::between))]
fn push_shows(out: &mut Vec<u8>, on: &On<'_>, unit: u8) -> Result<(), AllocError>
    ensures { let M = on.now.m.now in OnOk result (out.new.items ≡ out.old.items
        ++ text_of M (k.gets M (KeptPort unit))) }
{
    push_text(out, b"(")?;
    push_begins(out, on, unit, 1)?;
    push_text(out, b")||(")?;
    push_is_coming(out, on, unit, 1)?;
    push_text(out, b")")
}

/// Puts whether a place gets a word in this cycle.
fn push_gets(out: &mut Vec<u8>, on: &On<'_>, place: Place) -> Result<(), AllocError>
    ensures { let M = on.now.m.now in OnOk result (out.new.items ≡ out.old.items
        ++ text_of M (k.gets M (place_of place))) }
{
    match place {
        Place::Reg { file, index } => push_reached(out, on, Dest::Reg { file, index }),
        Place::Imm { unit, index } => push_long(out, on, unit, index),
        Place::Operand { unit } => push_reached(out, on, Dest::Operand { unit }),
        Place::Ra => push_reached(out, on, Dest::Call),
        Place::Port { unit } => push_shows(out, on, unit),
    }
}

/// Puts whether a place has a word from now on.
#[tactic(auto, unfolding(tta_verilog::specs::Expressions::between))]
fn push_has_next(out: &mut Vec<u8>, on: &On<'_>, place: Place) -> Result<(), AllocError>
    ensures { let M = on.now.m.now in OnOk result (out.new.items ≡ out.old.items
        ++ text_of M (k.has_next M (place_of place))) }
{
    push_text(out, b"(")?;
    push_gets(out, on, place)?;
    push_text(out, b")||(")?;
    push_watch(out, on.m, Watch::HasWord(place))?;
    push_text(out, b")")
}

/// Puts whether the address to which a control move leads is past all that have the width of addresses.
#[tactic(auto, unfolding(tta_verilog::specs::Expressions::between, tta_verilog::specs::Expressions::negated))]
fn push_far(out: &mut Vec<u8>, m: &Machine) -> Result<(), AllocError>
    ensures { OnOk result (out.new.items ≡ out.old.items ++ text_of m.now (k.is_far m.now)) }
{
    push_text(out, b"!((n_goal_now)<(")?;
    push_constant(out, 32, u64::from(m.addresses()))?;
    push_text(out, b"))")
}

/// Puts whether the address is the greatest that has the width of addresses.
#[tactic(auto, unfolding(tta_verilog::specs::Expressions::between))]
fn push_at_end(out: &mut Vec<u8>, m: &Machine) -> Result<(), AllocError>
    ensures { OnOk result (out.new.items ≡ out.old.items ++ text_of m.now (x.is_at_end m.now)) }
{
    let greatest = m.addresses().saturating_sub(1);
    push_text(out, b"(n_pc)==(")?;
    push_constant(out, u32::from(m.control.address), u64::from(greatest))?;
    push_text(out, b")")
}

/// Puts whether the next address is past all that have the width of addresses.
#[tactic(auto, unfolding(tta_verilog::specs::Expressions::choice))]
fn push_past_next(out: &mut Vec<u8>, on: &On<'_>) -> Result<(), AllocError>
    ensures { let M = on.now.m.now in
        OnOk result (out.new.items ≡ out.old.items ++ text_of M (k.past_next M)) }
{
    push_text(out, b"(")?;
    push_leads(out, on)?;
    push_text(out, b")?(")?;
    push_far(out, on.m)?;
    push_text(out, b"):")?;
    push_at_end(out, on.m)
}

/// Puts what a register becomes at a clock that carries an instruction out.
fn push_next(out: &mut Vec<u8>, on: &On<'_>, watch: Watch) -> Result<(), AllocError>
    ensures { let M = on.now.m.now in OnOk result (out.new.items ≡ out.old.items
        ++ text_of M (k.watch_next M (watch_of watch))) }
{
    match watch {
        Watch::HasWord(place) => push_has_next(out, on, place),
        Watch::IsPast => push_past_next(out, on),
        Watch::LacksRegister { .. }
        | Watch::LacksPort { .. }
        | Watch::LacksOperand { .. }
        | Watch::Clashes { .. }
        | Watch::Fault => push_constant(out, 1, 0),
    }
}

/// Puts what it becomes at the next clock, which may begin anew.
#[tactic(auto, unfolding(tta_verilog::specs::Expressions::choice))]
pub fn push_becomes(out: &mut Vec<u8>, on: &On<'_>, watch: Watch) -> Result<(), AllocError>
    ensures { let M = on.now.m.now in OnOk result (out.new.items ≡ out.old.items
        ++ text_of M (x.watch_becomes M (watch_of watch))) }
{
    push_text(out, b"(reset)?(")?;
    push_constant(out, 1, 0)?;
    push_text(out, b"):")?;
    push_next(out, on, watch)
}
