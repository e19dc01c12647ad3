//! The results that moves start, and the rows in which they are on the way.

ghost use Rattle.std.specs.Prelude.{◌≡◌, ◌≤◌, ◌++◌, length, IfOk, OnOk};
ghost use Rattle.std.specs.Option.{option_map_or};
ghost use Rattle.tta_arch.specs.Effects.{op_at};
ghost use Rattle.tta_draw.specs.Results.{latency_in, on_the_way, started, started_in, results_of};
ghost use Rattle.tta_draw.specs.Results.{longest, lanes_in};

use crate::span::Span;
use std::alloc::{AllocError, Global};
use tta_arch::{Dest, Machine, Unit, UnitOp};
use tta_code::{Instruction, Move};
use tta_list::entry_at;

/// An operation that a unit offers.
fn op_at(m: &Machine, unit: u8, op: u8) -> Option<UnitOp>
    ensures { result ≡ op_at m.now unit op }
{
    match entry_at(m.units.as_slice(), unit) {
        None => None,
        Some(u) => u.ops.as_slice().get(usize::from(op)).copied(),
    }
}

/// After how many cycles the result of an operation shows, if the unit offers it, and else 0.
fn latency_of(m: &Machine, unit: u8, op: u8) -> u8
    ensures { result ≡ option_map_or (λ o. o.latency) (op_at m.now unit op) 0 }
{
    match op_at(m, unit, op) {
        Some(o) => o.latency,
        None => 0,
    }
}

/// After how many cycles the result shows that a move into this destination starts in a unit; 0 if it
/// starts none there.
fn latency_in(m: &Machine, unit: u8, dst: Dest) -> u8
    ensures { result ≡ latency_in m.now unit dst }
{
    match dst {
        Dest::Trigger { unit: u, op } => { if u == unit { latency_of(m, u, op) } else { 0 } }
        _ => 0,
    }
}

/// Puts the rows in which a result is on the way that a row starts.
fn push_on_the_way(spans: &mut Vec<Span>, row: usize, latency: u8) -> Result<(), AllocError>
    requires { row ≤ 65536 }
    ensures { OnOk result (spans.new.items ≡ spans.old.items ++ on_the_way row latency) }
{
    if latency == 0 {
        return Ok(());
    }
    let from = row as u32;
    spans.push(Span {
        from,
        to: from + u32::from(latency) - 1,
    })?;
    Ok(())
}

/// Puts the result that the move of a slot starts in a unit.
fn push_started(
    spans: &mut Vec<Span>,
    m: &Machine,
    unit: u8,
    row: usize,
    slot: Option<Move>,
) -> Result<(), AllocError>
    requires { row ≤ 65536 }
    ensures { OnOk result (spans.new.items ≡ spans.old.items ++ started m.now unit row slot) }
{
    match slot {
        Some(v) => push_on_the_way(spans, row, latency_in(m, unit, v.dst)),
        None => Ok(()),
    }
}

/// Puts the results that an instruction starts in a unit.
fn push_all_started(
    spans: &mut Vec<Span>,
    m: &Machine,
    unit: u8,
    row: usize,
    i: &Instruction,
) -> Result<(), AllocError>
    requires { row ≤ 65536 }
    ensures { OnOk result (spans.new.items ≡ spans.old.items ++ started_in m.now unit row i.now) }
{
    for slot in i.moves.as_slice() {
        push_started(spans, m, unit, row, *slot)?;
    }
    Ok(())
}

/// Puts the results of a unit, in the order of the rows that start them.
fn push_results(
    spans: &mut Vec<Span>,
    m: &Machine,
    words: &[Instruction],
    unit: u8,
) -> Result<(), AllocError>
    requires { length words.now ≤ 65536 }
    ensures { OnOk result (spans.new.items ≡ spans.old.items ++ results_of m.now words.now unit) }
{
    for (row, i) in words.iter().enumerate() {
        push_all_started(spans, m, unit, row, i)?;
    }
    Ok(())
}

/// The results of a unit, in the order of the rows that start them.
pub fn results_of(
    alloc: Global,
    m: &Machine,
    words: &[Instruction],
    unit: u8,
) -> Result<Vec<Span>, AllocError>
    requires { length words.now ≤ 65536 }
    ensures { IfOk result (λ v. v.items ≡ results_of m.now words.now unit) }
{
    let mut spans = Vec::new(alloc);
    push_results(&mut spans, m, words, unit)?;
    Ok(spans)
}

/// The greatest of 1 and the latencies of operations.
fn longest(ops: &[UnitOp]) -> u8
    ensures { result ≡ longest 1 ops.now }
{
    let mut most = 1;
    for o in ops {
        most = most.max(o.latency);
    }
    most
}

/// How many lanes the results of a unit have.
pub fn lanes_in(u: &Unit) -> u8
    ensures all { result ≡ lanes_in u.now }
    ensures few { result ≤ 16 }
{
    16_u8.min(longest(u.ops.as_slice()))
}
