//! Whether a line can be carried out, and what it does.

ghost use Rattle.std.specs.Prelude.{◌≡◌, Bool, None, Some, true, false, is_some};
ghost use Rattle.tta_ops.specs.Set.{stated};
ghost use Rattle.tta_sim.specs.Results.{shown_by};
ghost use Rattle.tta_sim.specs.Lines.{is_ready, IsLineThere};
ghost use Rattle.tta_sim.specs.Ready.{AreNoted, AreLeft, AreDue};
ghost use Rattle.tta_sim.specs.Unset.{IsFaultOf};

use crate::control::Control;
use crate::control_moves::controls_well;
use crate::decoded::Line;
use crate::dues::note_dues;
use crate::fault::{CONTROL_IN_DELAY, UNSET_PORT, UNSET_REGISTER};
use crate::lines::{Missing, note_starts, note_writes};
use crate::results::Results;
use crate::starts;
use crate::store::{CycleBuffers, Store};
use crate::unset::reads_unset;
use tta_ops::UnitSet;

/// Collects what a line writes and starts, and answers whether all of its moves can be carried out.
#[inline(always)]
fn is_ready(
    buffers: &mut CycleBuffers,
    store: &Store,
    results: &Results<'_>,
    control: &Control,
    line: &Line,
) -> bool
    requires { IsLineThere results.now.units line.now }
    ensures ready { let is_pending = is_some control.now.pending in
        result ≡ is_ready store.now.places results.now is_pending line.now }
    ensures noted { let shown = shown_by results.now in
        AreNoted store.now.places shown line.now buffers.new.writes }
    ensures left { result ≡ true → AreLeft store.now results.now line.now buffers.new }
{
    let places = &store.places;
    if !note_writes(&mut buffers.writes, places, results, line.writes.as_slice()) {
        return false;
    }
    let writes = buffers.writes.as_slice();
    let moves = line.starts.as_slice();
    if !note_starts(&mut buffers.starts, writes, places, results, moves) {
        return false;
    }
    controls_well(places, results, control.pending.is_some(), line)
}

/// The fault of a cycle whose line is not ready: 60 where a register is read that was never
/// written, else 61 where a result port is read that shows nothing yet, else 62 or 63 where an
/// operation cannot start, and else 64, since only control is left. It is not in line, and it has
/// results of its own: by reference, each cycle would store them for a call that it does not make.
#[inline(never)]
fn fault_of(buffers: &mut CycleBuffers, store: &Store, results: Results<'_>, line: &Line) -> u8
    requires there { IsLineThere results.units line.now }
    requires noted { let shown = shown_by results in
        AreNoted store.now.places shown line.now buffers.old.writes }
    ensures { (is_pending : Bool)
        → is_ready store.now.places results.entry is_pending line.now ≡ false
        → IsFaultOf store.now.places results.entry is_pending line.now (Some result) }
{
    let places = &store.places;
    if reads_unset(Missing::Place, places, &results, line) {
        return UNSET_REGISTER;
    }
    if reads_unset(Missing::Port, places, &results, line) {
        return UNSET_PORT;
    }
    // All can be read, so all words to write were collected.
    let writes = buffers.writes.as_slice();
    if !note_starts(
        &mut buffers.starts,
        writes,
        places,
        &results,
        line.starts.as_slice(),
    ) {
        return starts::fault_of(buffers.starts.as_slice());
    }
    CONTROL_IN_DELAY
}

/// Collects what a line writes and starts, or answers the fault of its cycle.
#[inline(always)]
pub fn find_fault(
    buffers: &mut CycleBuffers,
    store: &Store,
    results: &Results<'_>,
    control: &Control,
    line: &Line,
) -> Option<u8>
    requires { IsLineThere results.now.units line.now }
    ensures fault { let is_pending = is_some control.now.pending in
        IsFaultOf store.now.places results.now is_pending line.now result }
    ensures left { result ≡ None → AreLeft store.now results.now line.now buffers.new }
{
    if is_ready(buffers, store, results, control, line) {
        return None;
    }
    Some(fault_of(buffers, store, results.reborrow(), line))
}

/// Collects what a pure line writes and which results its operations show, and answers whether all of
/// its moves can be carried out.
#[inline(always)]
fn is_pure_ready(
    buffers: &mut CycleBuffers,
    store: &Store,
    results: &Results<'_>,
    units: &UnitSet,
    line: &Line,
) -> bool
    requires there { IsLineThere results.now.units line.now }
    requires pure { line.now.pure ≡ true }
    ensures ready { (is_pending : Bool)
        → result ≡ is_ready store.now.places results.now is_pending line.now }
    ensures noted { let shown = shown_by results.now in
        AreNoted store.now.places shown line.now buffers.new.writes }
    ensures left { let U = stated unit_meaning units.now in
        result ≡ true → AreDue U store.now results.now line.now buffers.new }
{
    let places = &store.places;
    if !note_writes(&mut buffers.writes, places, results, line.writes.as_slice()) {
        return false;
    }
    let writes = buffers.writes.as_slice();
    let moves = line.starts.as_slice();
    note_dues(&mut buffers.dues, writes, store, results, units, moves)
}

/// Collects what a pure line writes and which results its operations show, or answers the fault of
/// its cycle.
#[inline(always)]
pub fn find_pure_fault(
    buffers: &mut CycleBuffers,
    store: &Store,
    results: &Results<'_>,
    units: &UnitSet,
    line: &Line,
) -> Option<u8>
    requires there { IsLineThere results.now.units line.now }
    requires pure { line.now.pure ≡ true }
    ensures fault { (is_pending : Bool)
        → IsFaultOf store.now.places results.now is_pending line.now result }
    ensures left { let U = stated unit_meaning units.now in
        result ≡ None → AreDue U store.now results.now line.now buffers.new }
{
    if is_pure_ready(buffers, store, results, units, line) {
        return None;
    }
    Some(fault_of(buffers, store, results.reborrow(), line))
}
