//! The numbers of blocks.

ghost use Rattle.std.specs.Prelude.{◌≡◌, ◌<◌, ◌==◌, ◌^◌, ℕ, Some, length, slice_index, slice_set, IfOk, if◌then◌else◌};
ghost use Rattle.tta_lower.specs.Tables.{StandOnce, HasNumbers, HasRoom, IsWritten, row_of, number_in};

use crate::part::Part;
use std::alloc::{AllocError, Global};
use tta_flow::Block;
use tta_program::Program;

/// The numbers of blocks: by procedure and first step those that hold steps, and by procedure those
/// of entries.
#[derive(Drop)]
pub struct Numbers {
    pub rows: Vec<Vec<u32>>,
    pub entries: Vec<u32>,
}

/// The number of the block that begins with a step.
pub fn number(numbers: &Numbers, owner: u32, at: u32) -> u32
    ensures { result ≡ number_in numbers.now.rows.items owner at }
{
    if (owner as usize) < numbers.rows.len() {
        number_at(numbers.rows[owner as usize].as_slice(), at)
    } else {
        0
    }
}

/// The number at a place, 0 where there is none.
fn number_at(row: &[u32], at: u32) -> u32
    ensures { result ≡ slice_index row.now at }
{
    match row.get(at as usize) {
        Some(number) => *number,
        None => 0,
    }
}

/// Writes a number at a place, if it is there.
fn write(row: &mut Vec<u32>, at: u32, number: u32)
    ensures { row.new.items ≡ slice_set row.old.items at number }
{
    if (at as usize) < row.len() {
        row[at as usize] = number;
    }
}

/// Writes the number of a block at its first step.
fn write_row(rows: &mut Vec<Vec<u32>>, b: Block, number: u32)
    ensures size { length rows.new.items ≡ length rows.old.items }
    ensures rows { (o : ℕ) → row_of rows.new.items o ≡ (if b.owner == o
        then slice_set (row_of rows.old.items o) b.first number else row_of rows.old.items o) }
{
    if (b.owner as usize) < rows.len() {
        write(&mut rows[b.owner as usize], b.first, number);
    }
}

/// Writes the number of a part.
fn write_number(numbers: &mut Numbers, part: Part, number: u32)
    ensures { IsWritten part number numbers.old numbers.new }
{
    match part {
        Part::Entry(owner) => write(&mut numbers.entries, owner, number),
        Part::Steps(b) => write_row(&mut numbers.rows, b, number),
        Part::Returned(_, _, _) => {}
    }
}

/// Rows of a number for each step, all 0.
fn no_rows(alloc: Global, p: &Program) -> Result<Vec<Vec<u32>>, AllocError>
    ensures { IfOk result (λ rows. HasRoom p.now rows.items) }
{
    let procs = p.procs.as_slice();
    let mut rows = Vec::new(alloc);
    for o in 0..procs.len() {
        let row = vec![in alloc; 0; procs[o].steps.as_slice().len()]?;
        rows.push(row)?;
    }
    Ok(rows)
}

/// The numbers of all parts that hold steps or are entries.
pub fn numbers_of(alloc: Global, p: &Program, parts: &[Part]) -> Result<Numbers, AllocError>
    requires once { StandOnce parts.now }
    requires few { length parts.now < 2 ^ 32 }
    ensures { IfOk result (λ n. HasNumbers p.now parts.now n (length parts.now)) }
{
    let rows = no_rows(alloc, p)?;
    let entries = vec![in alloc; 0; p.procs.as_slice().len()]?;
    let mut numbers = Numbers { rows, entries };
    for (k, part) in parts.iter().enumerate() {
        write_number(&mut numbers, *part, k as u32);
    }
    Ok(numbers)
}
