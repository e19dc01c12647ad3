//! Where the spaces are written, and what all parts come to.

ghost use Rattle.std.specs.Prelude.{◌≡◌, [], IfOk, OnOk};
ghost use Rattle.tta_arch.specs.Rules.{same_op};
ghost use Rattle.tta_arch.specs.declared.parts.Op.TheVariants.{Out, Stf, Stw, Take};
ghost use Rattle.tta_circuit.specs.Circuit as c;
ghost use Rattle.tta_cost.specs.Depths.{cost_of};
ghost use Rattle.tta_cost.specs.Offers.{word_of};
ghost use Rattle.tta_offers.specs.Offers.{places_of};
ghost use Rattle.tta_cost.specs.Tally.{cost_of_port, parts_of, put, registers_put, wires_put};
ghost use Rattle.tta_cost.specs.declared.parts.Part.TheVariants as part;
ghost use Rattle.tta_hardware.specs.Hardware as h;
ghost use Rattle.tta_hardware.specs.Signals as s;
ghost use Rattle.tta_hardware.specs.Wires as w;

use crate::control::{Streams, goes_line};
use crate::offers::{Given, some_start, word_where};
use crate::on::On;
use crate::parts::{Part, Parts};
use crate::rows::{Clock, put_registers};
use crate::wires::put_wires;
use std::alloc::{AllocError, Global};
use tta_arch::Op;
use tta_measure::{Cost, SUM};
use tta_offers::{OpAt, all_ops};

/// A word of the unit where one of some operations of a kind starts.
fn word_now(on: &On<'_>, what: Given, ops: &[OpAt], wanted: Op) -> Cost
    requires { places_of ops.now ≡ w.all_ops on.now.m.now (same_op wanted) }
    ensures { let T = on.now.applied.now in let M = on.now.m.now in
        result ≡ cost_of T M (w.word_of_start M (same_op wanted) (λ unit. c.Signal (word_of what unit))) }
{
    word_where(on, what, ops)
}

/// Whether one of them starts.
fn starts_now(on: &On<'_>, ops: &[OpAt], wanted: Op) -> Cost
    requires { places_of ops.now ≡ w.all_ops on.now.m.now (same_op wanted) }
    ensures { let T = on.now.applied.now in let M = on.now.m.now in
        result ≡ cost_of T M (w.some_start M (same_op wanted)) }
{
    some_start(on, ops)
}

/// Where a space is written by the operations of a kind: what enables it, the address and the word.
fn store(of: &Clock<'_>, ops: &[OpAt], wanted: Op, size: u32) -> Cost
    requires { places_of ops.now ≡ w.all_ops of.now.on.now.m.now (same_op wanted) }
    ensures { let T = of.now.on.now.applied.now in let M = of.now.on.now.m.now in
        result ≡ cost_of_port T M (h.store_port M size (same_op wanted)) }
{
    let address = word_now(of.on, Given::Operand, ops, wanted);
    let word = word_now(of.on, Given::Trigger, ops, wanted);
    let inside = address.beside(Cost::free()).behind(SUM);
    let enable = of.goes.gate(starts_now(of.on, ops, wanted).gate(inside));
    enable.beside(address.beside(word))
}

/// Puts where a space is written.
fn put_store(
    alloc: Global,
    parts: &mut Parts,
    of: &Clock<'_>,
    wanted: Op,
    size: u32,
) -> Result<(), AllocError>
    ensures { let T = of.now.on.now.applied.now in let M = of.now.on.now.m.now in
        OnOk result (parts.new ≡ put part.Spaces
        (cost_of_port T M (h.store_port M size (same_op wanted))) parts.old) }
{
    let ops = all_ops(alloc, of.on.m, wanted)?;
    parts.put(Part::Spaces, store(of, ops.as_slice(), wanted, size));
    Ok(())
}

/// Puts all wires and registers, and where the spaces are written.
fn put_all(alloc: Global, parts: &mut Parts, of: &Streams<'_>) -> Result<(), AllocError>
    ensures { let T = of.now.on.now.applied.now in let M = of.now.on.now.m.now in
        OnOk result (parts.new ≡
        put part.Spaces (cost_of_port T M (h.store_port M M.frame_words (same_op Stf)))
        (put part.Spaces (cost_of_port T M (h.store_port M M.data_words (same_op Stw)))
        (registers_put T M (h.register_names M) (wires_put T M (h.wire_names M) parts.old)))) }
{
    let m = of.on.m;
    put_wires(parts, of);
    let clock = Clock {
        on: of.on,
        goes: goes_line(of),
    };
    put_registers(parts, &clock);
    put_store(alloc, parts, &clock, Op::Stw, m.data_words)?;
    put_store(alloc, parts, &clock, Op::Stf, m.frame_words)
}

/// The parts of a machine's circuit, whatever its memories begin with.
pub fn parts_of(alloc: Global, on: &On<'_>) -> Result<Parts, AllocError>
    ensures { let T = on.now.applied.now in let M = on.now.m.now in
        IfOk result (λ p. p ≡ parts_of T M (h.circuit_with M [] [])) }
{
    let gives = all_ops(alloc, on.m, Op::Out)?;
    let takes = all_ops(alloc, on.m, Op::Take)?;
    let of = Streams {
        on: &*on,
        gives: gives.as_slice(),
        takes: takes.as_slice(),
    };
    let mut parts = Parts::none();
    put_all(alloc, &mut parts, &of)?;
    Ok(parts)
}
