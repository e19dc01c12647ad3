//! Lines that take words which are all set.

ghost use Rattle.std.specs.Prelude.{◌≡◌, ◌==◌, None, true, if◌then◌else◌, is_some, nat_lt};
ghost use Rattle.std.specs.Prelude.{slice_index_or, IsTrue};
ghost use Rattle.tta_arch.specs.Effects.{KeptOperand};
ghost use Rattle.tta_sim.specs.Places.{is_place, number_of, place_count};
ghost use Rattle.std.specs.Option.{option_map_or, unwrap_or};
ghost use Rattle.std.specs.List.{list_all, AllByRecursion};
ghost use Rattle.tta_sim.specs.Results.{results_at, shown_by, AreThere};
ghost use Rattle.tta_sim.specs.Lines.{source_word, word_read};
ghost use Rattle.tta_sim.specs.Lines.{is_source_there, is_reading_there, is_write_there};
ghost use Rattle.tta_sim.specs.Lines.{is_start_there, is_control_there, IsLineThere};
ghost use Rattle.tta_sim.specs.Flat.{source_said, guard_said, reading_said};
ghost use Rattle.tta_sim.specs.Known.{is_guard_known, is_guard_let, is_known};
ghost use Rattle.tta_sim.specs.Known.{is_start_known, is_settled};

use crate::decoded::{DecodedControl, DecodedSource, DecodedStart, DecodedWrite, Line, Reading};
use crate::flat::{FlatReading, FlatStart, WORD_SOURCE};
use crate::places::{NO_PLACE, Places};
use crate::results::{Part, Results};
use tta_flight::Region;

/// Whether a source has a word.
#[inline(always)]
fn is_source_known(places: &Places, results: &Results<'_>, src: DecodedSource) -> bool
    requires { IsTrue (is_source_there results.now.units src) }
    ensures { result ≡ is_some (source_word places.now (shown_by results.now) src) }
{
    match src {
        DecodedSource::Word(_) => true,
        DecodedSource::Place(number) => places.at(number).is_some(),
        DecodedSource::Port(unit) => results.port(unit).is_some(),
    }
}

/// Whether the guard of a move, if it has one, and its source have words.
#[inline(always)]
fn is_known(places: &Places, results: &Results<'_>, r: &Reading) -> bool
    requires { IsTrue (is_reading_there results.now.units r.now) }
    ensures { result ≡ is_known places.now (shown_by results.now) r.now }
{
    if let Some(g) = r.guard
        && places.at(g.place).is_none()
    {
        return false;
    }
    is_source_known(places, results, r.src)
}

/// Whether that is so of all these writes.
#[inline(always)]
fn are_writes_known(places: &Places, results: &Results<'_>, moves: &[DecodedWrite]) -> bool
    requires { AllByRecursion (λ w. IsTrue (is_write_there results.now.units w)) moves.now }
    ensures { let known = is_known places.now (shown_by results.now) in
        result ≡ list_all (λ w. known w.reading) moves.now }
{
    for w in moves {
        if !is_known(places, results, &w.reading) {
            return false;
        }
    }
    true
}

/// Whether that is so of a start, and its operand port has a word, if it takes one.
#[inline(always)]
fn is_start_known(places: &Places, results: &Results<'_>, s: &DecodedStart) -> bool
    requires { IsTrue (is_start_there results.now.units s.now) }
    ensures { result ≡ is_start_known places.now (shown_by results.now) s.now }
{
    is_known(places, results, &s.reading) && (s.does.arity != 2 || places.operand(s.unit).is_some())
}

/// Whether that is so of all these starts.
#[inline(always)]
fn are_starts_known(places: &Places, results: &Results<'_>, moves: &[DecodedStart]) -> bool
    requires { AllByRecursion (λ s. IsTrue (is_start_there results.now.units s)) moves.now }
    ensures { result ≡ list_all (is_start_known places.now (shown_by results.now)) moves.now }
{
    for s in moves {
        if !is_start_known(places, results, s) {
            return false;
        }
    }
    true
}

/// Whether the guards and the sources of all these control moves have words.
#[inline(always)]
fn are_controls_known(places: &Places, results: &Results<'_>, moves: &[DecodedControl]) -> bool
    requires { AllByRecursion (λ t. IsTrue (is_control_there results.now.units t)) moves.now }
    ensures { let known = is_known places.now (shown_by results.now) in
        result ≡ list_all (λ t. known t.reading) moves.now }
{
    for t in moves {
        if !is_known(places, results, &t.reading) {
            return false;
        }
    }
    true
}

/// Whether all that the moves of a line take is set. It is not in line, since it is asked for once
/// for most lines.
#[inline(never)]
pub fn is_settled(places: &Places, region: &Region, part: Part, line: &Line) -> bool
    requires are { AreThere (results_at part region.now) }
    requires there { IsLineThere part.count line.now }
    ensures { result ≡ is_settled places.now (shown_by (results_at part region.now)) line.now }
{
    let results = Results::of(region, part);
    are_writes_known(places, &results, line.writes.as_slice())
        && are_starts_known(places, &results, line.starts.as_slice())
        && are_controls_known(places, &results, line.controls.as_slice())
}

/// The word of a move's source, which has one.
#[inline(always)]
fn word_known(places: &Places, results: &Results<'_>, r: &FlatReading) -> u32
    requires { IsTrue (is_source_there results.now.units (source_said r.now)) }
    ensures { let src = source_said r.now in
        result ≡ unwrap_or (source_word places.now (shown_by results.now) src) 0 }
{
    if r.src < NO_PLACE {
        return places.at(r.src).unwrap_or(0);
    }
    if r.src == WORD_SOURCE {
        return r.word;
    }
    results.port(r.unit).unwrap_or(0)
}

/// Whether a move acts whose guard has a word, if it has one.
#[inline(always)]
fn is_let(places: &Places, r: &FlatReading) -> bool
    requires there { let within = option_map_or (λ g. nat_lt g.place place_count) in
        within (guard_said r.now) true ≡ true }
    requires known { is_guard_known places.now (guard_said r.now) ≡ true }
    ensures { result ≡ is_guard_let places.now (guard_said r.now) }
{
    if r.guard == NO_PLACE {
        return true;
    }
    (places.at(r.guard).unwrap_or(0) == 0) == r.inverted
}

/// The word that a move takes, if it acts, where its guard and its source have words.
#[inline(always)]
pub fn read_known(places: &Places, results: &Results<'_>, r: &FlatReading) -> Option<u32>
    requires there { IsTrue (is_reading_there results.now.units (reading_said r.now)) }
    requires known { is_known places.now (shown_by results.now) (reading_said r.now) ≡ true }
    ensures { result ≡ word_read places.now (shown_by results.now) (reading_said r.now) }
{
    if !is_let(places, r) {
        return None;
    }
    Some(word_known(places, results, r))
}

/// The word that an operation takes from its unit's operand port, 0 where it takes none.
#[inline(always)]
pub fn operand_known(places: &Places, s: &FlatStart) -> u32
    requires { IsTrue (is_place (KeptOperand s.now.unit)) }
    ensures { result ≡ (if s.now.does.arity == 2
        then unwrap_or (slice_index_or places.now (number_of (KeptOperand s.now.unit)) None) 0 else 0) }
{
    if s.does.arity == 2 {
        places.operand(s.unit).unwrap_or(0)
    } else {
        0
    }
}

/// The word that a move takes, if it acts and has one.
#[inline(always)]
pub fn read_said(places: &Places, results: &Results<'_>, r: &FlatReading) -> Option<u32>
    requires { IsTrue (is_reading_there results.now.units (reading_said r.now)) }
    ensures { result ≡ word_read places.now (shown_by results.now) (reading_said r.now) }
{
    if r.guard != NO_PLACE && places.at(r.guard).is_none() {
        return None;
    }
    if !is_let(places, r) {
        return None;
    }
    if r.src < NO_PLACE {
        return places.at(r.src);
    }
    if r.src == WORD_SOURCE {
        return Some(r.word);
    }
    results.port(r.unit)
}
