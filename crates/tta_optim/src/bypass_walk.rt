//! Reads that a result port serves.

ghost use Rattle.std.specs.Prelude.{◌≡◌, true, [], IfOk};
ghost use Rattle.std.specs.List.{list_all};
ghost use Rattle.tta_moves.specs.Slots.{has_slot};
ghost use Rattle.tta_moves.specs.Forms.{is_port_source, is_wide_file};
ghost use Rattle.tta_optim.specs.Notes.{shown_by, port_by, bypassed_by};
ghost use Rattle.tta_optim.specs.Passes.{bypass_items};

use crate::notes::Notes;
use std::alloc::{AllocError, Global};
use tta_arch::{Dest, GuardRef, Machine, Source};
use tta_connect::TargetMachine;
use tta_list::entry_at;
use tta_moves::numbers::register;
use tta_moves::{Item, ItemSource, is_joined};

/// Whether a file has registers of 32 bits.
fn is_wide_file(m: &Machine, file: u8) -> bool
    ensures { result ≡ is_wide_file m.now file }
{
    match entry_at(m.files.as_slice(), file) {
        None => false,
        Some(f) => f.width == 32,
    }
}

/// Whether a source is a result port.
fn is_port_source(src: ItemSource) -> bool
    ensures { result ≡ is_port_source src }
{
    match src {
        ItemSource::Port(from) => matches!(from, Source::Shown { .. }),
        ItemSource::Address(_) => false,
    }
}

/// The result port that still shows what a source has, where that is a register of 32 bits.
fn shown_by(m: &Machine, notes: &Notes, src: ItemSource) -> Option<ItemSource>
    ensures { result ≡ shown_by m.now notes.now src }
{
    let ItemSource::Port(Source::Reg { file, index }) = src else {
        return None;
    };
    if !is_wide_file(m, file) {
        return None;
    }
    let Some(port) = notes.copied(register(file, index)) else {
        return None;
    };
    if is_port_source(port) {
        Some(port)
    } else {
        None
    }
}

/// The result port that a move can read in place of its source.
fn port_by(
    on: &TargetMachine<'_>,
    notes: &Notes,
    guard: Option<GuardRef>,
    src: ItemSource,
    dst: Dest,
) -> Option<ItemSource>
    ensures { result ≡ port_by on.now.machine.now notes.now guard src dst }
{
    let Some(port) = shown_by(on.machine, notes, src) else {
        return None;
    };
    if is_joined(on.machine, on.net, port, dst, guard) {
        Some(port)
    } else {
        None
    }
}

/// The item, with the result port in place of a register that was copied from it, where a bus joins
/// the ends.
fn bypassed(on: &TargetMachine<'_>, notes: &Notes, x: Item) -> Item
    ensures { result ≡ bypassed_by on.now.machine.now notes.now x }
{
    let Item::Move { guard, src, dst } = x else {
        return x;
    };
    match port_by(on, notes, guard, src, dst) {
        None => x,
        Some(port) => Item::Move {
            guard,
            src: port,
            dst,
        },
    }
}

/// The items, each reading the result port that it could read, in one walk down.
pub fn bypass_items(
    alloc: Global,
    notes: &mut Notes,
    on: &TargetMachine<'_>,
    items: &[Item],
) -> Result<Vec<Item>, AllocError>
    requires { list_all (has_slot on.now.machine.now) items.now ≡ true }
    ensures { IfOk result (λ v. v.items ≡ bypass_items on.now.machine.now [] items.now) }
{
    on.machine.rules();
    notes.begin();
    let mut kept = Vec::with_capacity(alloc, items.len())?;
    for (at, x) in items.iter().enumerate() {
        let y = bypassed(on, notes, *x);
        notes.pass(on.machine, at + 1, y);
        kept.push(y)?;
    }
    Ok(kept)
}
