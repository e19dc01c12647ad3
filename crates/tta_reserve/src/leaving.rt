//! What a row leaves for one item more.

ghost use Rattle.std.specs.Prelude.{◌≡◌, ℕ, ◌<◌, ◌≤◌, ◌&&◌, not, true, false, length, slice_index};
ghost use Rattle.std.specs.Prelude.{IfSome, IfNone};
ghost use Rattle.tta_arch.specs.Joins.{has_bit};
ghost use Rattle.tta_connect.specs.Net.{IsNetOf};
ghost use Rattle.tta_reserve.specs.Leaving.{row_reads, row_writes, row_takes};
ghost use Rattle.tta_reserve.specs.Leaving.{fills_beside, row_fills};

use crate::row::Row;
use tta_arch::{Dest, GuardRef, Machine, Source, Template, has_bus, least_bus};
use tta_connect::Net;
use tta_list::entry_at;

/// A count, 0 past the end.
fn count_at(counts: &[u8], at: u8) -> u8
    ensures { result ≡ slice_index counts.now at }
{
    match counts.get(usize::from(at)) {
        None => 0,
        Some(n) => *n,
    }
}

/// Whether a row leaves a read of a source.
fn row_reads(r: &Row, m: &Machine, src: Source) -> bool
    ensures { result ≡ row_reads m.now r.now src }
{
    match src {
        Source::Reg { file, .. } => match entry_at(m.files.as_slice(), file) {
            None => false,
            Some(q) => count_at(&r.reads, file) < q.read,
        },
        Source::Imm { unit, .. } => !has_bus(u16::from(r.imms), usize::from(unit)),
        Source::Shown { .. } | Source::Ra | Source::Value(_) => true,
    }
}

/// Whether a row leaves a write of a destination.
fn row_writes(r: &Row, m: &Machine, dst: Dest) -> bool
    ensures { result ≡ row_writes m.now r.now dst }
{
    match dst {
        Dest::Reg { file, .. } => match entry_at(m.files.as_slice(), file) {
            None => false,
            Some(q) => count_at(&r.writes, file) < q.write,
        },
        Dest::Operand { .. } | Dest::Trigger { .. } => true,
        Dest::Jump | Dest::Call | Dest::Halt => true,
    }
}

/// Those of some buses that are not among others.
fn without(buses: u16, others: u16) -> u16
    ensures { (bus : ℕ) → has_bit result bus ≡ (has_bit buses bus && not (has_bit others bus)) }
{
    buses & !others
}

/// The least bus on which a row takes a move. It is None exactly where there is none.
pub fn bus_for(
    r: &Row,
    m: &Machine,
    net: &Net,
    src: Source,
    dst: Dest,
    guard: Option<GuardRef>,
) -> Option<u8>
    requires { IsNetOf net.now m.now }
    ensures there { IfSome result (λ bus. row_takes m.now r.now bus src dst guard ≡ true) }
    ensures least { IfSome result (λ bus. (k : ℕ) → k < bus
        → row_takes m.now r.now k src dst guard ≡ false) }
    ensures none { IfNone result ((k : ℕ) → row_takes m.now r.now k src dst guard ≡ false) }
{
    if !row_reads(r, m, src) || !row_writes(r, m, dst) {
        return None;
    }
    let free = without(without(net.joining(m, src, dst, guard), r.moves), r.taken);
    least_bus(free)
}

/// Whether a template writes an immediate register and takes no bus that has a move.
fn fills_beside(r: &Row, imm: u8, reg: u8, t: &Template) -> bool
    ensures { result ≡ fills_beside r.now imm reg t.now }
{
    t.imm == imm && t.reg == reg && r.moves & t.buses == 0
}

/// The least template on which a row takes a long immediate. It is None exactly where there is
/// none.
pub fn least_template(r: &Row, templates: &[Template], imm: u8, reg: u8) -> Option<u8>
    requires { length templates.now ≤ 8 }
    ensures there { IfSome result (λ t. row_fills templates.now r.now t imm reg ≡ true) }
    ensures least { IfSome result (λ t. (k : ℕ) → k < t
        → row_fills templates.now r.now k imm reg ≡ false) }
    ensures none { IfNone result ((k : ℕ) → row_fills templates.now r.now k imm reg ≡ false) }
{
    if r.template {
        return None;
    }
    for (t, template) in templates.iter().enumerate() {
        if fills_beside(r, imm, reg, template) {
            return Some(t as u8);
        }
    }
    None
}
