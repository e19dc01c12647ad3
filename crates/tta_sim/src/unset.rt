//! Reads of words that were never written.

ghost use Rattle.std.specs.Prelude.{◌≡◌, ℕ, IsTrue};
ghost use Rattle.std.specs.List.{list_any};
ghost use Rattle.tta_arch.specs.Machine.{Machine};
ghost use Rattle.tta_code.specs.declared.code.Instruction.{Instruction};
ghost use Rattle.tta_sim.specs.Results.{shown_by};
ghost use Rattle.tta_sim.specs.Moves.{reads_of, effects_in};
ghost use Rattle.tta_sim.specs.Decoded.{IsDecoded};
ghost use Rattle.tta_sim.specs.Lines.{is_reading_there, IsLineThere};
ghost use Rattle.tta_sim.specs.Unset.{lacks_word, lacks_for};

use crate::decoded::{Line, Reading};
use crate::lines::{Missing, Read, read_move};
use crate::places::Places;
use crate::results::Results;
use tta_list::either;

/// Whether a move lacks a word of this kind.
fn lacks(what: Missing, places: &Places, results: &Results<'_>, r: &Reading) -> bool
    requires { IsTrue (is_reading_there results.now.units r.now) }
    ensures { result ≡ lacks_word what places.now (shown_by results.now) r.now }
{
    let read = read_move(places, results, r);
    match what {
        Missing::Place => matches!(read, Read::Unset(Missing::Place)),
        Missing::Port => matches!(read, Read::Unset(Missing::Port)),
    }
}

/// Whether one of a line's writes lacks such a word.
fn writes_lack(what: Missing, places: &Places, results: &Results<'_>, line: &Line) -> bool
    requires { IsLineThere results.now.units line.now }
    ensures { let lacks = lacks_word what places.now (shown_by results.now) in
        result ≡ list_any (λ w. lacks w.reading) line.now.writes }
{
    for w in line.writes.as_slice() {
        if lacks(what, places, results, &w.reading) {
            return true;
        }
    }
    false
}

/// Whether one of a line's starts lacks such a word.
fn starts_lack(what: Missing, places: &Places, results: &Results<'_>, line: &Line) -> bool
    requires { IsLineThere results.now.units line.now }
    ensures { let lacks = lacks_word what places.now (shown_by results.now) in
        result ≡ list_any (λ s. lacks s.reading) line.now.starts }
{
    for s in line.starts.as_slice() {
        if lacks(what, places, results, &s.reading) {
            return true;
        }
    }
    false
}

/// Whether one of a line's control moves lacks such a word.
fn controls_lack(what: Missing, places: &Places, results: &Results<'_>, line: &Line) -> bool
    requires { IsLineThere results.now.units line.now }
    ensures { let lacks = lacks_word what places.now (shown_by results.now) in
        result ≡ list_any (λ t. lacks t.reading) line.now.controls }
{
    for t in line.controls.as_slice() {
        if lacks(what, places, results, &t.reading) {
            return true;
        }
    }
    false
}

/// Whether a move of a line lacks a word of this kind. That is so exactly where a move of the
/// instruction does that the line was decoded from.
pub fn reads_unset(what: Missing, places: &Places, results: &Results<'_>, line: &Line) -> bool
    requires { IsLineThere results.now.units line.now }
    ensures { (m : Machine) → (back : ℕ) → (i : Instruction) → IsDecoded m back i line.now
        → result ≡ list_any (lacks_for what (reads_of places.now (shown_by results.now)))
        (effects_in i.moves) }
{
    let writes = writes_lack(what, places, results, line);
    let starts = starts_lack(what, places, results, line);
    let controls = controls_lack(what, places, results, line);
    either(writes, either(starts, controls))
}
