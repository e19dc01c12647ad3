//! The wires of buses that tell what their moves read and lack.

ghost use Rattle.std.specs.Prelude.{◌≡◌, ◌+◌, ◌<◌, ◌^◌, ◌++◌, map, length, OnOk};
ghost use Rattle.std.specs.List.{flat_map, range_with_len};
ghost use Rattle.tta_arch.specs.Effects.{KeptReg};
ghost use Rattle.tta_arch.specs.Fields.{numbers};
ghost use Rattle.tta_arch.specs.Layout.{fields_of};
ghost use Rattle.tta_circuit.specs.Circuit as c;
ghost use Rattle.tta_hardware.specs.Signals as s;
ghost use Rattle.tta_hardware.specs.Chains.{pick_from};
ghost use Rattle.tta_hardware.specs.Wires.{never};
ghost use Rattle.tta_names.specs.Names.{text_of, watch_name};
ghost use Rattle.tta_trap.specs.Watches as w;
ghost use Rattle.tta_trap_rtl.specs.Texts.{bit_text, bus_text, lack_at, made};

use crate::names::push_lacks;
use crate::reads::{Lack, push_acts_on};
use std::alloc::AllocError;
use tta_arch::{BusFields, Guard, Machine};
use tta_names::{Place, Watch, push_watch};
use tta_rtl::{On, push_is_code};
use tta_verilog::{push_constant, push_range, push_text};

/// Puts whether there is a move on a bus.
#[tactic(auto, unfolding(tta_verilog::specs::Expressions::negated))]
fn push_has_move(
    out: &mut Vec<u8>,
    on: &On<'_>,
    bus: usize,
    f: &BusFields,
) -> Result<(), AllocError>
    requires { f.now ≡ fields_of on.now.m.now bus }
    ensures { let M = on.now.m.now in
        OnOk result (out.new.items ≡ out.old.items ++ text_of M (w.has_move M bus)) }
{
    if f.dest_width == 0 {
        return push_constant(out, 1, 0);
    }
    push_text(out, b"!(")?;
    push_is_code(out, on.m, b"dest_", bus, f.dest_width, 0)?;
    push_text(out, b")")
}

/// Puts whether the guard was never written whose code stands in the bus's field, the first of these
/// having the code k.
#[tactic(auto, unfolding(tta_verilog::specs::Expressions::choice))]
fn pick_guard_lacks(
    out: &mut Vec<u8>,
    on: &On<'_>,
    bus: usize,
    width: u32,
    k: u64,
    guards: &[Guard],
) -> Result<(), AllocError>
    requires { k + length guards.now < 2 ^ 64 }
    ensures { let T = text_of on.now.m.now in
        OnOk result (out.new.items ≡ out.old.items ++ T (pick_from width (c.Signal (s.Fetched (s.GuardOf bus))) k
        (map (λ g. w.lacks (KeptReg g.on.file g.on.index)) guards.now) never)) }
{
    match guards {
        [] => push_constant(out, 1, 0),
        [g, rest @ ..] => {
            let file = g.on.file;
            let index = g.on.index;
            push_text(out, b"(")?;
            push_is_code(out, on.m, b"guard_", bus, width, k)?;
            push_text(out, b")?(")?;
            push_lacks(out, on.m, Place::Reg { file, index })?;
            push_text(out, b"):")?;
            pick_guard_lacks(out, on, bus, width, k + 1, rest)
        }
    }
}

/// Puts whether the guard of the move of a bus was never written.
#[tactic(auto, unfolding(tta_verilog::specs::Expressions::choice))]
fn push_guard_lacks(
    out: &mut Vec<u8>,
    on: &On<'_>,
    bus: usize,
    f: &BusFields,
) -> Result<(), AllocError>
    requires { f.now ≡ fields_of on.now.m.now bus }
    ensures { let M = on.now.m.now in
        OnOk result (out.new.items ≡ out.old.items ++ text_of M (w.guard_lacks M bus)) }
{
    if f.guard_width == 0 {
        return push_constant(out, 1, 0);
    }
    push_text(out, b"(")?;
    push_is_code(out, on.m, b"guard_", bus, f.guard_width, 0)?;
    push_text(out, b")?(")?;
    push_constant(out, 1, 0)?;
    push_text(out, b"):")?;
    pick_guard_lacks(out, on, bus, f.guard_width, 1, f.guards.as_slice())
}

/// Puts whether the move of a bus reads a register that was never written, its guard or its source.
#[tactic(auto, unfolding(tta_verilog::specs::Expressions::between))]
fn push_lacks_register(
    out: &mut Vec<u8>,
    on: &On<'_>,
    bus: usize,
    f: &BusFields,
) -> Result<(), AllocError>
    requires { f.now ≡ fields_of on.now.m.now bus }
    ensures { let M = on.now.m.now in OnOk result
        (out.new.items ≡ out.old.items ++ text_of M (made M (s.LacksRegister bus))) }
{
    push_text(out, b"(")?;
    push_has_move(out, on, bus, f)?;
    push_text(out, b")&&((")?;
    push_guard_lacks(out, on, bus, f)?;
    push_text(out, b")||(")?;
    push_acts_on(out, on, bus, f, Lack::Register)?;
    push_text(out, b"))")
}

/// Puts whether it reads a result port that has shown nothing.
#[tactic(auto, unfolding(tta_verilog::specs::Expressions::between))]
fn push_lacks_port(
    out: &mut Vec<u8>,
    on: &On<'_>,
    bus: usize,
    f: &BusFields,
) -> Result<(), AllocError>
    requires { f.now ≡ fields_of on.now.m.now bus }
    ensures { let M = on.now.m.now in OnOk result
        (out.new.items ≡ out.old.items ++ text_of M (made M (s.LacksPort bus))) }
{
    push_text(out, b"(")?;
    push_has_move(out, on, bus, f)?;
    push_text(out, b")&&(")?;
    push_acts_on(out, on, bus, f, Lack::Port)?;
    push_text(out, b")")
}

/// Puts the name of the wire that tells it.
pub fn push_lack_at(
    out: &mut Vec<u8>,
    m: &Machine,
    lack: Lack,
    bus: usize,
) -> Result<(), AllocError>
    ensures { OnOk result
        (out.new.items ≡ out.old.items ++ watch_name m.now (lack_at lack bus)) }
{
    match lack {
        Lack::Register => push_watch(out, m, Watch::LacksRegister { bus }),
        Lack::Port => push_watch(out, m, Watch::LacksPort { bus }),
    }
}

/// Puts what the move of a bus reads that lacks a word.
fn push_bus_lacks(
    out: &mut Vec<u8>,
    on: &On<'_>,
    bus: usize,
    f: &BusFields,
    lack: Lack,
) -> Result<(), AllocError>
    requires { f.now ≡ fields_of on.now.m.now bus }
    ensures { let M = on.now.m.now in OnOk result
        (out.new.items ≡ out.old.items ++ text_of M (made M (lack_at lack bus))) }
{
    match lack {
        Lack::Register => push_lacks_register(out, on, bus, f),
        Lack::Port => push_lacks_port(out, on, bus, f),
    }
}

/// Puts the wire of that.
#[tactic(auto, unfolding(tta_verilog::specs::Circuits::wire_line, crate::specs::Texts::bit_text))]
fn push_lack_wire(
    out: &mut Vec<u8>,
    on: &On<'_>,
    bus: usize,
    f: &BusFields,
    lack: Lack,
) -> Result<(), AllocError>
    requires { f.now ≡ fields_of on.now.m.now bus }
    ensures { OnOk result
        (out.new.items ≡ out.old.items ++ bit_text on.now.m.now (lack_at lack bus)) }
{
    push_text(out, b"wire ")?;
    push_range(out, 1)?;
    push_lack_at(out, on.m, lack, bus)?;
    push_text(out, b" = ")?;
    push_bus_lacks(out, on, bus, f, lack)?;
    push_text(out, b";\n")
}

/// Puts the wires of buses, from one on.
#[tactic(auto, unfolding(crate::specs::Texts::bus_text))]
fn push_lacks_from(
    out: &mut Vec<u8>,
    on: &On<'_>,
    bus: usize,
    buses: &[BusFields],
) -> Result<(), AllocError>
    requires room { bus + length buses.now < 2 ^ 64 }
    requires fields { buses.now ≡ map (fields_of on.now.m.now)
        (range_with_len bus (length buses.now)) }
    ensures { OnOk result (out.new.items ≡ out.old.items
        ++ flat_map (bus_text on.now.m.now) (range_with_len bus (length buses.now))) }
{
    match buses {
        [] => Ok(()),
        [f, rest @ ..] => {
            push_lack_wire(out, on, bus, f, Lack::Register)?;
            push_lack_wire(out, on, bus, f, Lack::Port)?;
            push_lacks_from(out, on, bus + 1, rest)
        }
    }
}

/// Puts the wires of all buses.
#[tactic(auto, using(tta_rtl::proofs::Layouts::layout_fields))]
pub fn push_bus_watches(out: &mut Vec<u8>, on: &On<'_>) -> Result<(), AllocError>
    ensures { OnOk result (out.new.items ≡ out.old.items
        ++ flat_map (bus_text on.now.m.now) (numbers (length on.now.layout.now.buses))) }
{
    push_lacks_from(out, on, 0, on.layout.buses.as_slice())
}
