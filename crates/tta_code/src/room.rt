//! What the moves of a cycle leave free.

ghost use Rattle.std.specs.Prelude.{◌≡◌, false};
ghost use Rattle.std.specs.List.{list_any};
ghost use Rattle.std.specs.Option.{option_map_or};
ghost use Rattle.tta_arch.specs.Legal.{reads_file, reads_imm, writes_file, same_place};
ghost use Rattle.tta_code.specs.Illegal.{taken_by, moves_where, has_read_left, has_write_left};
ghost use Rattle.tta_code.specs.Illegal.{goes_into, is_place_free};

use crate::code::{Long, Move};
use tta_arch::{Dest, Machine, Source, Template};

/// The buses that a long immediate's template takes.
pub fn taken(templates: &[Template], long: Option<Long>) -> u16
    ensures { result ≡ taken_by templates.now long }
{
    let Some(l) = long else {
        return 0;
    };
    match templates.get(usize::from(l.template)) {
        None => 0,
        Some(t) => t.buses,
    }
}

/// Whether a slot has a move that reads a file.
fn reads_file(slot: Option<Move>, file: u8) -> bool
    ensures { result ≡ option_map_or (λ v. reads_file file v.src) slot false }
{
    match slot {
        None => false,
        Some(v) => match v.src {
            Source::Reg { file: f, .. } => f == file,
            _ => false,
        },
    }
}

/// Whether a slot has a move that reads an immediate unit.
fn reads_imm(slot: Option<Move>, unit: u8) -> bool
    ensures { result ≡ option_map_or (λ v. reads_imm unit v.src) slot false }
{
    match slot {
        None => false,
        Some(v) => match v.src {
            Source::Imm { unit: u, .. } => u == unit,
            _ => false,
        },
    }
}

/// Whether a slot has a move that writes a file.
fn writes_file(slot: Option<Move>, file: u8) -> bool
    ensures { result ≡ option_map_or (λ v. writes_file file v.dst) slot false }
{
    match slot {
        None => false,
        Some(v) => match v.dst {
            Dest::Reg { file: f, .. } => f == file,
            _ => false,
        },
    }
}

/// Whether two moves go into one place: a register, an operand port, a unit's trigger port or
/// control's.
fn same_place(a: Dest, b: Dest) -> bool
    ensures { result ≡ same_place a b }
{
    match a {
        Dest::Reg { file, index } => match b {
            Dest::Reg { file: f, index: k } => file == f && index == k,
            _ => false,
        },
        Dest::Operand { unit } => match b {
            Dest::Operand { unit: u } => unit == u,
            _ => false,
        },
        Dest::Trigger { unit, .. } => match b {
            Dest::Trigger { unit: u, .. } => unit == u,
            _ => false,
        },
        Dest::Jump | Dest::Call | Dest::Halt => matches!(b, Dest::Jump | Dest::Call | Dest::Halt),
    }
}

/// Whether a slot has a move into a place.
fn goes_into(slot: Option<Move>, dst: Dest) -> bool
    ensures { result ≡ goes_into dst slot }
{
    match slot {
        None => false,
        Some(v) => same_place(v.dst, dst),
    }
}

/// How many moves read a file.
fn file_reads(moves: &[Option<Move>], file: u8) -> usize
    ensures { result ≡ moves_where (λ v. reads_file file v.src) moves.now }
{
    moves.iter().filter(|slot| reads_file(**slot, file)).count()
}

/// How many moves read an immediate unit.
fn imm_reads(moves: &[Option<Move>], unit: u8) -> usize
    ensures { result ≡ moves_where (λ v. reads_imm unit v.src) moves.now }
{
    moves.iter().filter(|slot| reads_imm(**slot, unit)).count()
}

/// How many moves write a file.
fn file_writes(moves: &[Option<Move>], file: u8) -> usize
    ensures { result ≡ moves_where (λ v. writes_file file v.dst) moves.now }
{
    moves
        .iter()
        .filter(|slot| writes_file(**slot, file))
        .count()
}

/// Whether moves leave a source room for one more: a file has so many reads a cycle, and an
/// immediate unit one.
pub fn has_read_left(m: &Machine, moves: &[Option<Move>], src: Source) -> bool
    ensures { result ≡ has_read_left m.now moves.now src }
{
    match src {
        Source::Reg { file, .. } => match m.files.as_slice().get(usize::from(file)) {
            None => false,
            Some(f) => file_reads(moves, file) < usize::from(f.read),
        },
        Source::Imm { unit, .. } => imm_reads(moves, unit) < 1,
        _ => true,
    }
}

/// Whether moves leave a destination room for one more: a file has so many writes a cycle.
pub fn has_write_left(m: &Machine, moves: &[Option<Move>], dst: Dest) -> bool
    ensures { result ≡ has_write_left m.now moves.now dst }
{
    match dst {
        Dest::Reg { file, .. } => match m.files.as_slice().get(usize::from(file)) {
            None => false,
            Some(f) => file_writes(moves, file) < usize::from(f.write),
        },
        _ => true,
    }
}

/// Whether a move goes into a place.
fn is_place_taken(moves: &[Option<Move>], dst: Dest) -> bool
    ensures { result ≡ list_any (goes_into dst) moves.now }
{
    moves.iter().any(|slot| goes_into(*slot, dst))
}

/// Whether no move goes into a place.
pub fn is_place_free(moves: &[Option<Move>], dst: Dest) -> bool
    ensures { result ≡ is_place_free moves.now dst }
{
    !is_place_taken(moves, dst)
}
