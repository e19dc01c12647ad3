//! Lines whose moves can be carried out one after another.

ghost use Rattle.std.specs.Prelude.{◌≡◌, ◌==◌, ◌||◌};
ghost use Rattle.std.specs.List.{list_any};
ghost use Rattle.tta_arch.specs.Rules.{are_different, is_stream_op};
ghost use Rattle.tta_sim.specs.Order.{is_place_at, is_port_at, reads_place, is_touched};
ghost use Rattle.tta_sim.specs.Order.{reads_written, is_store, is_shown_to, is_barred, is_late};
ghost use Rattle.tta_sim.specs.Order.{is_changed, is_in_order};

use crate::decoded::{DecodedControl, DecodedSource, DecodedStart, DecodedWrite, Line, Reading};
use tta_arch::Op;
use tta_list::either;

/// Whether a source is the place with this number.
fn is_place_at(number: u32, src: DecodedSource) -> bool
    ensures { result ≡ is_place_at number src }
{
    match src {
        DecodedSource::Place(place) => place == number,
        DecodedSource::Word(_) | DecodedSource::Port(_) => false,
    }
}

/// Whether a source is the result port of this unit.
fn is_port_at(unit: u8, src: DecodedSource) -> bool
    ensures { result ≡ is_port_at unit src }
{
    match src {
        DecodedSource::Port(port) => port == unit,
        DecodedSource::Word(_) | DecodedSource::Place(_) => false,
    }
}

/// Whether a move reads the place with this number.
fn reads_place(number: u32, r: &Reading) -> bool
    ensures { result ≡ reads_place number r.now }
{
    if let Some(g) = r.guard
        && g.place == number
    {
        return true;
    }
    is_place_at(number, r.src)
}

/// Whether one of these writes writes or reads the place that an earlier one writes.
fn any_touched(earlier: &DecodedWrite, writes: &[DecodedWrite]) -> bool
    ensures { result ≡ list_any (is_touched earlier.now) writes.now }
{
    for w in writes {
        if w.place == earlier.place || reads_place(earlier.place, &w.reading) {
            return true;
        }
    }
    false
}

/// Whether each of these writes neither writes nor reads a place that one before it writes.
fn are_untouched(writes: &[DecodedWrite]) -> bool
    ensures { result ≡ are_different is_touched writes.now }
{
    let mut i = 0;
    'writes: while i < writes.len() {
        if any_touched(&writes[i], &writes[i + 1..]) {
            return false;
        }
        i += 1;
    }
    true
}

/// Whether a move reads a place that one of these writes.
fn reads_written(writes: &[DecodedWrite], r: &Reading) -> bool
    ensures { result ≡ reads_written writes.now r.now }
{
    for w in writes {
        if reads_place(w.place, r) {
            return true;
        }
    }
    false
}

/// Whether an operation stores its word.
fn is_store(op: Op) -> bool
    ensures { result ≡ is_store op }
{
    match op {
        Op::Stw | Op::Stf => true,
        Op::Ldw | Op::Ldf | Op::Set(_) | Op::Out | Op::Take => false,
    }
}

/// Whether an operation outputs a word or takes one.
fn is_stream_op(op: Op) -> bool
    ensures { result ≡ is_stream_op op }
{
    match op {
        Op::Out | Op::Take => true,
        Op::Ldw | Op::Ldf | Op::Set(_) | Op::Stw | Op::Stf => false,
    }
}

/// Whether a move reads the result port at which the result of a start shows in the next cycle.
fn is_shown_to(s: &DecodedStart, r: &Reading) -> bool
    ensures { result ≡ is_shown_to s.now r.now }
{
    s.does.latency == 1 && is_port_at(s.unit, r.src)
}

/// Whether an earlier start stores and there is one of these, or it changes what one of these reads.
fn any_barred(earlier: &DecodedStart, starts: &[DecodedStart]) -> bool
    ensures { result ≡ list_any (is_barred earlier.now) starts.now }
{
    for s in starts {
        let shows = is_shown_to(earlier, &s.reading);
        if either(is_store(earlier.does.op), shows) {
            return true;
        }
    }
    false
}

/// Whether no start follows one that stores, and none reads what one before it changes.
fn are_unbarred(starts: &[DecodedStart]) -> bool
    ensures { result ≡ are_different is_barred starts.now }
{
    let mut i = 0;
    'starts: while i < starts.len() {
        if any_barred(&starts[i], &starts[i + 1..]) {
            return false;
        }
        i += 1;
    }
    true
}

/// Whether one of these starts reads what one of the writes writes, or outputs or takes a word.
fn any_late(writes: &[DecodedWrite], starts: &[DecodedStart]) -> bool
    ensures { result ≡ list_any (is_late writes.now) starts.now }
{
    for s in starts {
        let reads = reads_written(writes, &s.reading);
        if either(reads, is_stream_op(s.does.op)) {
            return true;
        }
    }
    false
}

/// Whether a move reads a result port at which the result of one of these shows in the next cycle.
fn any_shown_to(starts: &[DecodedStart], r: &Reading) -> bool
    ensures { result ≡ list_any (λ s. is_shown_to s r.now) starts.now }
{
    for s in starts {
        if is_shown_to(s, r) {
            return true;
        }
    }
    false
}

/// Whether one of these control moves reads what one of the writes writes or one of the starts shows.
fn any_changed(
    writes: &[DecodedWrite],
    starts: &[DecodedStart],
    controls: &[DecodedControl],
) -> bool
    ensures { result ≡ list_any (is_changed writes.now starts.now) controls.now }
{
    for t in controls {
        let reads = reads_written(writes, &t.reading);
        if either(reads, any_shown_to(starts, &t.reading)) {
            return true;
        }
    }
    false
}

/// Whether the writes, then the starts, and then the control moves of a line can be carried out one
/// after another.
pub fn is_in_order(line: &Line) -> bool
    ensures { result ≡ is_in_order line.now }
{
    let writes = line.writes.as_slice();
    let starts = line.starts.as_slice();
    are_untouched(writes)
        && are_unbarred(starts)
        && !any_late(writes, starts)
        && !any_changed(writes, starts, line.controls.as_slice())
}
