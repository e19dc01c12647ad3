//! The rows of a table that serves block after block.

ghost use Rattle.std.specs.Prelude.{◌≡◌, ℕ, ◌<◌, true, length, replicate, IfOk};
ghost use Rattle.std.specs.List.{list_all};
ghost use Rattle.tta_depend.specs.Touched.{spot_below, is_soon};
ghost use Rattle.tta_depend.specs.Rows.{row_at, current, unused, against, change};
ghost use Rattle.tta_depend.specs.Rows.{with_written, with_read, AreRows};

use crate::places::SPOTS;
use crate::touches::Touched;
use std::alloc::{AllocError, Global};

/// What the placed items ask of the next touch of a spot.
#[derive(Clone, Copy)]
pub struct Row {
    /// From which cycle on the last write shows.
    pub shown: u32,
    /// From which cycle on the next write may show.
    pub free: u32,
    /// The round in which the row was written. What an earlier round wrote counts for nothing, so
    /// that a new round need not clear the table.
    pub round: u32,
}

const UNUSED: Row = Row {
    shown: 0,
    free: 0,
    round: 0,
};

/// A row for each spot, which nothing has touched.
pub fn unused_rows(alloc: Global) -> Result<Vec<Row>, AllocError>
    ensures { IfOk result (λ v. v.items ≡ replicate 673 unused) }
{
    Ok(vec![in alloc; UNUSED; SPOTS]?)
}

/// What a row says in a round.
fn current(row: Row, round: u32) -> Row
    ensures { result ≡ current round row }
{
    if row.round == round {
        row
    } else {
        Row {
            shown: 0,
            free: 0,
            round,
        }
    }
}

/// The least cycle in which touches are late enough for what shows.
pub fn against_shown(rows: &[Row], round: u32, touches: &[Touched]) -> u32
    requires { list_all (spot_below (length rows.now)) touches.now ≡ true }
    ensures { result ≡ against (λ r. r.shown) round rows.now touches.now }
{
    let mut least = 0u32;
    for t in touches {
        let row = current(rows[t.spot], round);
        least = least.max(row.shown.saturating_sub(t.after));
    }
    least
}

/// The least cycle in which touches are late enough for what is free.
pub fn against_free(rows: &[Row], round: u32, touches: &[Touched]) -> u32
    requires { list_all (spot_below (length rows.now)) touches.now ≡ true }
    ensures { result ≡ against (λ r. r.free) round rows.now touches.now }
{
    let mut least = 0u32;
    for t in touches {
        let row = current(rows[t.spot], round);
        least = least.max(row.free.saturating_sub(t.after));
    }
    least
}

/// Enters the writes of an item in a cycle.
pub fn enter_writes(rows: &mut Vec<Row>, round: u32, touches: &[Touched], cycle: u32)
    requires within { list_all (spot_below (length rows.old.items)) touches.now ≡ true }
    requires after { list_all is_soon touches.now ≡ true }
    requires soon { cycle < 1073741824 }
    ensures value { rows.new.items ≡ change (with_written round cycle) touches.now rows.old.items }
    ensures rows { AreRows round rows.old.items → AreRows round rows.new.items }
{
    for t in touches {
        let row = current(rows[t.spot], round);
        let from = cycle + t.after;
        rows[t.spot] = Row {
            shown: row.shown.max(from),
            free: row.free.max(from + 1),
            round,
        };
    }
}

/// Enters the reads of an item in a cycle.
pub fn enter_reads(rows: &mut Vec<Row>, round: u32, touches: &[Touched], cycle: u32)
    requires within { list_all (spot_below (length rows.old.items)) touches.now ≡ true }
    requires after { list_all is_soon touches.now ≡ true }
    requires soon { cycle < 1073741824 }
    ensures value { rows.new.items ≡ change (with_read round cycle) touches.now rows.old.items }
    ensures rows { AreRows round rows.old.items → AreRows round rows.new.items }
{
    for t in touches {
        let row = current(rows[t.spot], round);
        rows[t.spot] = Row {
            shown: row.shown,
            free: row.free.max(cycle + t.after + 1),
            round,
        };
    }
}

/// The round after one, in which nothing has touched the rows.
pub fn next_round(rows: &mut Vec<Row>, round: u32) -> u32
    requires { AreRows round rows.old.items }
    ensures empty { (k : ℕ) → row_at result rows.new.items k ≡ current result unused }
    ensures rows { AreRows result rows.new.items }
{
    if round == u32::MAX {
        rows.fill(UNUSED);
        return 0;
    }
    round + 1
}
