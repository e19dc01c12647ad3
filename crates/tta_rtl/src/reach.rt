//! Whether moves reach a destination, and what they bring.

ghost use Rattle.std.specs.Prelude.{◌≡◌, ◌+◌, ◌<◌, ◌^◌, ◌++◌, map, filter, length, OnOk};
ghost use Rattle.std.specs.List.{flat_map, range_with_len, position_or_len};
ghost use Rattle.tta_arch.specs.Fields.{same_dest};
ghost use Rattle.tta_arch.specs.Joins.{is_dest_on};
ghost use Rattle.tta_arch.specs.Layout.{fields_of};
ghost use Rattle.tta_hardware.specs.Chains.{any_of};
ghost use Rattle.tta_hardware.specs.Wires as w;
ghost use Rattle.tta_names.specs.Names.{text_of};
ghost use Rattle.tta_rtl.specs.Texts.{arrival, choices};

use crate::buses::push_is_code;
use crate::on::On;
use std::alloc::AllocError;
use tta_arch::{BusFields, Dest, is_dest_on};
use tta_names::push_of_bus;
use tta_verilog::{push_constant, push_text};

/// Whether two destinations are one.
fn same_dest(a: Dest, b: Dest) -> bool
    ensures { result ≡ same_dest a b }
{
    match (a, b) {
        (Dest::Reg { file: f, index: i }, Dest::Reg { file: g, index: j }) => f == g && i == j,
        (Dest::Operand { unit: u }, Dest::Operand { unit: v }) => u == v,
        (Dest::Trigger { unit: u, op: i }, Dest::Trigger { unit: v, op: j }) => u == v && i == j,
        (Dest::Jump, Dest::Jump) | (Dest::Call, Dest::Call) | (Dest::Halt, Dest::Halt) => true,
        _ => false,
    }
}

/// The code of a destination, these being those of the bus from the code k on.
fn dest_code(dests: &[Dest], k: u64, dst: Dest) -> u64
    requires { k + length dests.now < 2 ^ 64 }
    ensures { result ≡ k + position_or_len (same_dest dst) dests.now }
{
    match dests {
        [] => k,
        [d, rest @ ..] => {
            if same_dest(dst, *d) {
                return k;
            }
            dest_code(rest, k + 1, dst)
        }
    }
}

/// Puts whether the move of a bus brings its word to a destination.
#[tactic(auto, unfolding(tta_verilog::specs::Expressions::between))]
pub fn push_hits(
    out: &mut Vec<u8>,
    on: &On<'_>,
    bus: usize,
    f: &BusFields,
    dst: Dest,
) -> Result<(), AllocError>
    requires { f.now ≡ fields_of on.now.m.now bus }
    ensures { let T = text_of on.now.m.now in
        OnOk result (out.new.items ≡ out.old.items ++ T (w.hits on.now.m.now dst bus)) }
{
    push_text(out, b"(")?;
    push_of_bus(out, on.m, b"acts_", bus)?;
    push_text(out, b")&&(")?;
    let code = dest_code(f.dests.as_slice(), 1, dst);
    push_is_code(out, on.m, b"dest_", bus, f.dest_width, code)?;
    push_text(out, b")")
}

/// Puts whether one of some buses brings its word to a destination.
#[tactic(auto, unfolding(tta_verilog::specs::Expressions::between))]
fn push_reached_from(
    out: &mut Vec<u8>,
    on: &On<'_>,
    bus: usize,
    buses: &[BusFields],
    dst: Dest,
) -> Result<(), AllocError>
    requires room { bus + length buses.now < 2 ^ 64 }
    requires fields { buses.now ≡ map (fields_of on.now.m.now)
        (range_with_len bus (length buses.now)) }
    ensures { let T = text_of on.now.m.now in
        OnOk result (out.new.items ≡ out.old.items ++ T (any_of (map (w.hits on.now.m.now dst)
        (filter (λ b. is_dest_on on.now.m.now b dst) (range_with_len bus (length buses.now)))))) }
{
    match buses {
        [] => push_constant(out, 1, 0),
        [f, rest @ ..] => {
            if !is_dest_on(on.m, bus, dst) {
                return push_reached_from(out, on, bus + 1, rest, dst);
            }
            push_text(out, b"(")?;
            push_hits(out, on, bus, f, dst)?;
            push_text(out, b")||(")?;
            push_reached_from(out, on, bus + 1, rest, dst)?;
            push_text(out, b")")
        }
    }
}

/// Puts whether a move reaches a destination.
#[tactic(auto, using(crate::proofs::Layouts::layout_fields, crate::proofs::Layouts::layout_count))]
pub fn push_reached(out: &mut Vec<u8>, on: &On<'_>, dst: Dest) -> Result<(), AllocError>
    ensures { let T = text_of on.now.m.now in
        OnOk result (out.new.items ≡ out.old.items ++ T (w.reached on.now.m.now dst)) }
{
    push_reached_from(out, on, 0, on.layout.buses.as_slice(), dst)
}

/// Puts whether the move of a bus brings its word to a destination, and that word, as a choice begins;
/// nothing where the bus does not lead there.
#[tactic(auto, unfolding(crate::specs::Texts::choice_start, crate::specs::Texts::arrival))]
fn push_arrival(
    out: &mut Vec<u8>,
    on: &On<'_>,
    bus: usize,
    f: &BusFields,
    dst: Dest,
) -> Result<(), AllocError>
    requires { f.now ≡ fields_of on.now.m.now bus }
    ensures { OnOk result (out.new.items ≡ out.old.items ++ arrival on.now.m.now dst bus) }
{
    if !is_dest_on(on.m, bus, dst) {
        return Ok(());
    }
    push_text(out, b"(")?;
    push_hits(out, on, bus, f, dst)?;
    push_text(out, b")?(")?;
    push_of_bus(out, on.m, b"bus_", bus)?;
    push_text(out, b"):")
}

/// Puts what some buses can bring to a destination, each after the test whether it does.
fn push_arrivals_from(
    out: &mut Vec<u8>,
    on: &On<'_>,
    bus: usize,
    buses: &[BusFields],
    dst: Dest,
) -> Result<(), AllocError>
    requires room { bus + length buses.now < 2 ^ 64 }
    requires fields { buses.now ≡ map (fields_of on.now.m.now)
        (range_with_len bus (length buses.now)) }
    ensures { OnOk result (out.new.items ≡ out.old.items
        ++ flat_map (arrival on.now.m.now dst) (range_with_len bus (length buses.now))) }
{
    match buses {
        [] => Ok(()),
        [f, rest @ ..] => {
            push_arrival(out, on, bus, f, dst)?;
            push_arrivals_from(out, on, bus + 1, rest, dst)
        }
    }
}

/// Puts what the buses can bring to a destination, each after the test whether it does.
#[tactic(auto, using(crate::proofs::Layouts::layout_fields, crate::proofs::Layouts::layout_count, crate::proofs::Choices::arrivals_text))]
pub fn push_arrivals(out: &mut Vec<u8>, on: &On<'_>, dst: Dest) -> Result<(), AllocError>
    ensures { OnOk result (out.new.items ≡ out.old.items
        ++ choices on.now.m.now (w.arrivals on.now.m.now dst)) }
{
    push_arrivals_from(out, on, 0, on.layout.buses.as_slice(), dst)
}
