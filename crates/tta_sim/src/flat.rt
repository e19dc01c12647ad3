//! Moves in a flat form, which finds the words of a move by numbers alone.

ghost use Rattle.std.specs.Prelude.{◌≡◌, map, IfOk};
ghost use Rattle.tta_sim.specs.Flat.{number_in, word_in, unit_in, guard_in, inverted_in};
ghost use Rattle.tta_sim.specs.Flat.{flat_of, flat_write, flat_start, flat_control, row_with};
ghost use Rattle.tta_sim.specs.Known.{mark_of};

use crate::control::ControlKind;
use crate::decoded::{
    DecodedControl, DecodedGuard, DecodedSource, DecodedStart, DecodedWrite, Line, Reading,
};
use crate::mark::Mark;
use crate::places::NO_PLACE;
use std::alloc::{AllocError, Global};
use tta_arch::UnitOp;
use tta_list::Items;

/// Behind all places: the number of a source that is a word.
pub const WORD_SOURCE: u32 = NO_PLACE;

/// The number of a source that is a result port.
pub const PORT_SOURCE: u32 = NO_PLACE + 1;

/// What a move reads.
#[derive(Clone, Copy)]
pub struct FlatReading {
    /// The word of a source that is one.
    pub word: u32,
    /// The place that is the source, `WORD_SOURCE` where a word is, and `PORT_SOURCE` where a result port
    /// is.
    pub src: u32,
    /// The place of the guard's register, `NO_PLACE` where there is no guard.
    pub guard: u32,
    /// The unit of a source that is a result port.
    pub unit: u8,
    /// Whether the guard lets the move act where its register is 0.
    pub inverted: bool,
}

/// A move that writes a place, which keeps only the low bit where it is narrow.
#[derive(Clone, Copy)]
pub struct FlatWrite {
    pub reading: FlatReading,
    pub place: u32,
    pub narrow: bool,
}

/// A move that starts an operation of a unit.
#[derive(Clone, Copy)]
pub struct FlatStart {
    pub reading: FlatReading,
    pub unit: u8,
    pub does: UnitOp,
}

/// A control move.
#[derive(Clone, Copy)]
pub struct FlatControl {
    pub reading: FlatReading,
    pub kind: ControlKind,
}

/// The moves of a line, flat, and what is known of it.
#[derive(Drop)]
pub struct Row {
    pub mark: Mark,
    pub writes: Items<FlatWrite>,
    pub starts: Items<FlatStart>,
    pub controls: Items<FlatControl>,
}

/// The number that tells a source.
fn number_in(src: DecodedSource) -> u32
    ensures { result ≡ number_in src }
{
    match src {
        DecodedSource::Word(_) => WORD_SOURCE,
        DecodedSource::Place(number) => number,
        DecodedSource::Port(_) => PORT_SOURCE,
    }
}

/// The word of a source that is one.
fn word_in(src: DecodedSource) -> u32
    ensures { result ≡ word_in src }
{
    match src {
        DecodedSource::Word(word) => word,
        DecodedSource::Place(_) | DecodedSource::Port(_) => 0,
    }
}

/// The unit of a source that is a result port.
fn unit_in(src: DecodedSource) -> u8
    ensures { result ≡ unit_in src }
{
    match src {
        DecodedSource::Port(unit) => unit,
        DecodedSource::Word(_) | DecodedSource::Place(_) => 0,
    }
}

/// The place of a guard's register, `NO_PLACE` where there is no guard.
fn guard_in(guard: Option<DecodedGuard>) -> u32
    ensures { result ≡ guard_in guard }
{
    match guard {
        None => NO_PLACE,
        Some(g) => g.place,
    }
}

/// Whether a guard lets a move act where its register is 0.
fn inverted_in(guard: Option<DecodedGuard>) -> bool
    ensures { result ≡ inverted_in guard }
{
    match guard {
        None => false,
        Some(g) => g.inverted,
    }
}

/// What a move reads, flat.
fn flat_of(r: &Reading) -> FlatReading
    ensures { result ≡ flat_of r.now }
{
    FlatReading {
        word: word_in(r.src),
        src: number_in(r.src),
        guard: guard_in(r.guard),
        unit: unit_in(r.src),
        inverted: inverted_in(r.guard),
    }
}

/// The writes, flat.
fn flat_writes(alloc: Global, moves: &[DecodedWrite]) -> Result<Items<FlatWrite>, AllocError>
    ensures { IfOk result (λ v. v ≡ map flat_write moves.now) }
{
    let mut flat = Vec::with_capacity(alloc, moves.len())?;
    for w in moves {
        flat.push(FlatWrite {
            reading: flat_of(&w.reading),
            place: w.place,
            narrow: w.narrow,
        })?;
    }
    Ok(Items::of(flat))
}

/// The starts, flat.
fn flat_starts(alloc: Global, moves: &[DecodedStart]) -> Result<Items<FlatStart>, AllocError>
    ensures { IfOk result (λ v. v ≡ map flat_start moves.now) }
{
    let mut flat = Vec::with_capacity(alloc, moves.len())?;
    for s in moves {
        flat.push(FlatStart {
            reading: flat_of(&s.reading),
            unit: s.unit,
            does: s.does,
        })?;
    }
    Ok(Items::of(flat))
}

/// The control moves, flat.
fn flat_controls(alloc: Global, moves: &[DecodedControl]) -> Result<Items<FlatControl>, AllocError>
    ensures { IfOk result (λ v. v ≡ map flat_control moves.now) }
{
    let mut flat = Vec::with_capacity(alloc, moves.len())?;
    for t in moves {
        flat.push(FlatControl {
            reading: flat_of(&t.reading),
            kind: t.kind,
        })?;
    }
    Ok(Items::of(flat))
}

/// The row of a line at the begin of a run.
fn row_of(alloc: Global, line: &Line) -> Result<Row, AllocError>
    ensures { IfOk result (λ row. row ≡ row_with (mark_of line.now) line.now) }
{
    let writes = flat_writes(alloc, line.writes.as_slice())?;
    let starts = flat_starts(alloc, line.starts.as_slice())?;
    let controls = flat_controls(alloc, line.controls.as_slice())?;
    Ok(Row {
        mark: Mark::of(line),
        writes,
        starts,
        controls,
    })
}

/// The rows of lines at the begin of a run.
pub fn rows_of(alloc: Global, lines: &[Line]) -> Result<Vec<Row>, AllocError>
    ensures { IfOk result (λ v. v.items ≡ map (λ l. row_with (mark_of l) l) lines.now) }
{
    let mut rows = Vec::with_capacity(alloc, lines.len())?;
    for line in lines {
        let row = row_of(alloc, line)?;
        rows.push(row)?;
    }
    Ok(rows)
}
