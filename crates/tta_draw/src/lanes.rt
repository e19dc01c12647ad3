//! The lanes of arrows and bars, and the rows that have labels.

ghost use Rattle.std.specs.Prelude.{◌≡◌, ◌≤◌, ◌<◌, ◌+◌, ◌-◌, ◌==◌, ◌||◌, ℕ, max, nat_le, if◌then◌else◌};
ghost use Rattle.std.specs.Prelude.{[], length, true, false, replicate, slice_index, slice_index_or};
ghost use Rattle.std.specs.Prelude.{slice_set, IfOk, OnOk};
ghost use Rattle.std.specs.List.{list_any};
ghost use Rattle.tta_draw.specs.Lanes.{top_row, bottom_row, first_lane, laid_in, has_label};

use crate::span::{Laid, Span};
use std::alloc::{AllocError, Global};

/// How many lanes there are at most.
const LANES: usize = 16;

/// The highest row of a span.
fn top_row(s: Span) -> u32
    ensures { result ≡ top_row s }
{
    s.from.min(s.to)
}

/// And its lowest.
fn bottom_row(s: Span) -> u32
    ensures { result ≡ bottom_row s }
{
    s.from.max(s.to)
}

/// The first of so many lanes that is free from a row on, and the last one where none is. Of each lane
/// the row is given from which on it is free.
fn first_lane(free: &[u64; 16], lanes: u8, row: u64) -> u8
    requires { lanes ≤ 16 }
    ensures is { result
        ≡ first_lane (λ lane. nat_le (slice_index free.now lane) row) (lanes - 1) 0 }
    ensures within { result < 16 }
{
    let all = usize::from(lanes);
    let mut lane = 0;
    'lanes: while lane + 1 < all {
        if free[lane] <= row {
            return lane as u8;
        }
        lane += 1;
    }
    lane as u8
}

/// Gives a lane to one span more: the rows below it are free.
fn take_lane(free: &mut [u64; 16], lane: u8, bottom: u32)
    requires { lane < 16 }
    ensures taken { (k : ℕ) → k < 16 → slice_index free.new k
        ≡ (if k == lane then max (slice_index free.old k) (bottom + 1)
        else slice_index free.old k) }
{
    let place = usize::from(lane);
    free[place] = free[place].max(u64::from(bottom) + 1);
}

/// Puts each span in its lane.
fn push_laid(
    laid: &mut Vec<Laid>,
    free: &mut [u64; 16],
    lanes: u8,
    spans: &[Span],
) -> Result<(), AllocError>
    requires lanes { lanes ≤ 16 }
    requires none { laid.old.items ≡ [] }
    requires free { free.old ≡ replicate 16 0 }
    ensures { OnOk result (laid.new.items ≡ laid_in lanes spans.now) }
{
    for span in spans {
        let lane = first_lane(free, lanes, u64::from(top_row(*span)));
        laid.push(Laid { span: *span, lane })?;
        take_lane(free, lane, bottom_row(*span));
    }
    Ok(())
}

/// Spans in so many lanes.
pub fn laid_in(alloc: Global, lanes: u8, spans: &[Span]) -> Result<Vec<Laid>, AllocError>
    requires { lanes ≤ 16 }
    ensures { IfOk result (λ v. v.items ≡ laid_in lanes spans.now) }
{
    let mut laid = Vec::new(alloc);
    let mut free = [0; LANES];
    push_laid(&mut laid, &mut free, lanes, spans)?;
    Ok(laid)
}

/// So many rows without labels.
fn no_labels(alloc: Global, rows: usize) -> Result<Vec<bool>, AllocError>
    ensures { IfOk result (λ v. v.items ≡ replicate rows false) }
{
    let none = vec![in alloc; false; rows]?;
    Ok(none)
}

/// Gives a row a label, if there is such a row.
fn set_label(labels: &mut Vec<bool>, row: usize)
    ensures { labels.new.items ≡ slice_set labels.old.items row true }
{
    if row < labels.len() {
        labels[row] = true;
    }
}

/// Gives labels to the rows that arrows lead to.
fn set_labels(labels: &mut Vec<bool>, spans: &[Span])
    ensures size { length labels.new.items ≡ length labels.old.items }
    ensures set { (row : ℕ) → row < length labels.old.items
        → slice_index_or labels.new.items row false
        ≡ (slice_index_or labels.old.items row false || list_any (λ s. s.to == row) spans.now) }
{
    for span in spans {
        set_label(labels, span.to as usize);
    }
}

/// Which of so many rows have labels: the first, and each that an arrow leads to.
pub fn labels_of(alloc: Global, rows: usize, spans: &[Span]) -> Result<Vec<bool>, AllocError>
    ensures size { IfOk result (λ v. length v.items ≡ rows) }
    ensures labels { IfOk result (λ v. (row : ℕ) → row < rows
        → slice_index_or v.items row false ≡ has_label spans.now row) }
{
    let mut labels = no_labels(alloc, rows)?;
    set_label(&mut labels, 0);
    set_labels(&mut labels, spans);
    Ok(labels)
}
