//! What the moves of a decoded instruction bring.

ghost use Rattle.std.specs.Prelude.{◌≡◌, ◌<◌, ◌≤◌, ◌+◌, ◌++◌, ◌&&◌, not, true, false, is_none};
ghost use Rattle.std.specs.Prelude.{◌==◌, Some, if◌then◌else◌, length, option_to_list, IsTrue};
ghost use Rattle.std.specs.List.{filter_map, list_any, AllByRecursion};
ghost use Rattle.tta_arch.specs.Effects.{KeptOperand};
ghost use Rattle.tta_sim.specs.Places.{is_place};
ghost use Rattle.tta_sim.specs.Results.{shown_by};
ghost use Rattle.tta_sim.specs.Starts.{started};
ghost use Rattle.tta_sim.specs.Lines.{source_word, word_read, is_unread, word_of, is_unset};
ghost use Rattle.tta_sim.specs.Lines.{is_source_there, is_reading_there, is_write_there};
ghost use Rattle.tta_sim.specs.Lines.{is_start_there};
ghost use Rattle.tta_sim.specs.Lines.{write_brought, start_brought, operand_in, cannot_start};
ghost use Rattle.tta_sim.specs.Unset.{is_place_source, is_port_source, lacks_place, lacks_port};
ghost use Rattle.tta_sim.specs.Unset.{misses_place, misses_port};

use crate::decoded::{DecodedSource, DecodedStart, DecodedWrite, Reading};
use crate::places::{OPERANDS, Places};
use crate::results::Results;
use crate::short::Short;
use crate::starts::{Start, stops};
use tta_arch::UnitOp;
use tta_list::either;

/// A word that is brought to a place.
#[derive(Clone, Copy)]
pub struct Write {
    pub place: u32,
    pub word: u32,
}

/// What has no word where a move cannot be read.
#[derive(Clone, Copy)]
pub enum Missing {
    /// The place of its guard or its source was never written.
    Place,
    /// The result port that is its source shows nothing yet.
    Port,
}

/// What is read for a move.
#[derive(Clone, Copy)]
pub enum Read {
    /// The move does not act.
    Nothing,
    Word(u32),
    Unset(Missing),
}

/// What is read for a move that acts.
#[inline(always)]
fn read_source(places: &Places, results: &Results<'_>, src: DecodedSource) -> Read
    requires { IsTrue (is_source_there results.now.units src) }
    ensures word { word_of result ≡ source_word places.now (shown_by results.now) src }
    ensures unset { is_unset result ≡ is_none (source_word places.now (shown_by results.now) src) }
    ensures place { misses_place result
        ≡ (is_place_source src && is_none (source_word places.now (shown_by results.now) src)) }
    ensures port { misses_port result
        ≡ (is_port_source src && is_none (source_word places.now (shown_by results.now) src)) }
{
    match src {
        DecodedSource::Word(word) => Read::Word(word),
        DecodedSource::Place(number) => match places.at(number) {
            Some(word) => Read::Word(word),
            None => Read::Unset(Missing::Place),
        },
        DecodedSource::Port(unit) => match results.port(unit) {
            Some(word) => Read::Word(word),
            None => Read::Unset(Missing::Port),
        },
    }
}

/// What is read for a move at the start of a cycle.
#[inline(always)]
pub fn read_move(places: &Places, results: &Results<'_>, r: &Reading) -> Read
    requires { IsTrue (is_reading_there results.now.units r.now) }
    ensures word { word_of result ≡ word_read places.now (shown_by results.now) r.now }
    ensures unset { is_unset result ≡ is_unread places.now (shown_by results.now) r.now }
    ensures place { misses_place result ≡ lacks_place places.now (shown_by results.now) r.now }
    ensures port { misses_port result ≡ lacks_port places.now (shown_by results.now) r.now }
{
    let Some(g) = r.guard else {
        return read_source(places, results, r.src);
    };
    match places.at(g.place) {
        None => Read::Unset(Missing::Place),
        Some(word) => {
            if (word == 0) == g.inverted {
                read_source(places, results, r.src)
            } else {
                Read::Nothing
            }
        }
    }
}

/// Notes the word that a move writes, if it acts, and answers whether it could not be read.
#[inline(always)]
fn note_write(
    writes: &mut Short<Write>,
    places: &Places,
    results: &Results<'_>,
    w: &DecodedWrite,
) -> bool
    requires room { length writes.old < 32 }
    requires there { IsTrue (is_write_there results.now.units w.now) }
    ensures writes { let brought = write_brought places.now (shown_by results.now) in
        writes.new ≡ writes.old ++ option_to_list (brought w.now) }
    ensures unset { result ≡ is_unread places.now (shown_by results.now) w.now.reading }
{
    match read_move(places, results, &w.reading) {
        Read::Nothing => false,
        Read::Word(word) => {
            writes.push(Write {
                place: w.place,
                word: if w.narrow { word % 2 } else { word },
            });
            false
        }
        Read::Unset(_) => true,
    }
}

/// Collects what the moves write, and answers whether all of them could be read.
#[inline(always)]
pub fn note_writes(
    writes: &mut Short<Write>,
    places: &Places,
    results: &Results<'_>,
    moves: &[DecodedWrite],
) -> bool
    requires few { length moves.now ≤ 17 }
    requires there { AllByRecursion
        (λ w. IsTrue (is_write_there results.now.units w)) moves.now }
    ensures read { let unread = is_unread places.now (shown_by results.now) in
        result ≡ not (list_any (λ w. unread w.reading) moves.now) }
    ensures writes { let brought = write_brought places.now (shown_by results.now) in
        result ≡ true → writes.new ≡ filter_map brought moves.now }
{
    writes.clear();
    for w in moves {
        if note_write(writes, places, results, w) {
            return false;
        }
    }
    true
}

/// The word in a unit's operand port once this cycle's words are written.
#[inline(always)]
fn operand_after(writes: &[Write], places: &Places, unit: u8) -> Option<u32>
    requires { IsTrue (is_place (KeptOperand unit)) }
    ensures { result ≡ operand_in places.now writes.now unit }
{
    let place = OPERANDS + u32::from(unit);
    for w in writes {
        if w.place == place {
            return Some(w.word);
        }
    }
    places.operand(unit)
}

/// The operand that an operation starts with, 0 where it takes none.
#[inline(always)]
fn operand_of(writes: &[Write], places: &Places, unit: u8, does: &UnitOp) -> Option<u32>
    requires { IsTrue (is_place (KeptOperand unit)) }
    ensures { let operand = operand_in places.now writes.now in
        result ≡ (if does.now.arity == 2 then operand unit else Some 0) }
{
    if does.arity == 2 {
        operand_after(writes, places, unit)
    } else {
        Some(0)
    }
}

/// The operation that a word starts.
#[inline(always)]
pub fn start_of(writes: &[Write], places: &Places, s: &DecodedStart, word: u32) -> Start
    requires { IsTrue (is_place (KeptOperand s.now.unit)) }
    ensures { let operand = operand_in places.now writes.now in
        result ≡ started operand s.now.unit s.now.does word }
{
    Start {
        unit: s.unit,
        does: s.does,
        operand: operand_of(writes, places, s.unit, &s.does),
        word,
    }
}

/// Notes the operation that a move starts, if it acts, and answers whether it cannot start.
#[inline(always)]
fn note_start(
    starts: &mut Short<Start>,
    writes: &[Write],
    places: &Places,
    results: &Results<'_>,
    s: &DecodedStart,
) -> bool
    requires room { length starts.old < 32 }
    requires there { IsTrue (is_start_there results.now.units s.now) }
    ensures starts { let operand = operand_in places.now writes.now in
        let brought = start_brought places.now (shown_by results.now) operand in
        starts.new ≡ starts.old ++ option_to_list (brought s.now) }
    ensures stopped { let operand = operand_in places.now writes.now in
        result ≡ cannot_start places.now results.now operand s.now }
{
    match read_move(places, results, &s.reading) {
        Read::Nothing => false,
        Read::Word(word) => {
            let start = start_of(writes, places, s, word);
            let stopped = stops(results, &start);
            starts.push(start);
            stopped
        }
        Read::Unset(_) => true,
    }
}

/// Collects the operations that the moves start, whether or not these can start, and answers
/// whether all of them can.
#[inline(always)]
pub fn note_starts(
    starts: &mut Short<Start>,
    writes: &[Write],
    places: &Places,
    results: &Results<'_>,
    moves: &[DecodedStart],
) -> bool
    requires few { length moves.now ≤ 16 }
    requires there { AllByRecursion
        (λ s. IsTrue (is_start_there results.now.units s)) moves.now }
    ensures can { let operand = operand_in places.now writes.now in
        result ≡ not (list_any (cannot_start places.now results.now operand) moves.now) }
    ensures starts { let operand = operand_in places.now writes.now in
        let brought = start_brought places.now (shown_by results.now) operand in
        starts.new ≡ filter_map brought moves.now }
{
    starts.clear();
    let mut stopped = false;
    for s in moves {
        let by_this = note_start(starts, writes, places, results, s);
        stopped = either(by_this, stopped);
    }
    !stopped
}
