//! Moves that bring an operand port what it has.

ghost use Rattle.std.specs.Prelude.{◌≡◌, true, [], IfOk};
ghost use Rattle.std.specs.List.{list_all};
ghost use Rattle.tta_moves.specs.Slots.{has_slot};
ghost use Rattle.tta_moves.specs.Forms.{same_end, same_source};
ghost use Rattle.tta_optim.specs.Notes.{redundant_by};
ghost use Rattle.tta_optim.specs.Passes.{share_items};

use crate::notes::Notes;
use std::alloc::{AllocError, Global};
use tta_arch::{Dest, Machine, Source};
use tta_moves::numbers::operand;
use tta_moves::{Item, ItemSource};

/// Whether two ends are one.
fn same_end(a: Source, b: Source) -> bool
    ensures { result ≡ same_end a b }
{
    match a {
        Source::Reg { file, index } => match b {
            Source::Reg { file: f, index: i } => file == f && index == i,
            _ => false,
        },
        Source::Imm { unit, index } => match b {
            Source::Imm { unit: u, index: i } => unit == u && index == i,
            _ => false,
        },
        Source::Shown { unit } => match b {
            Source::Shown { unit: u } => unit == u,
            _ => false,
        },
        Source::Ra => matches!(b, Source::Ra),
        Source::Value(word) => match b {
            Source::Value(w) => word == w,
            _ => false,
        },
    }
}

/// Whether two sources are one.
fn same_source(a: ItemSource, b: ItemSource) -> bool
    ensures { result ≡ same_source a b }
{
    match a {
        ItemSource::Port(from) => match b {
            ItemSource::Port(other) => same_end(from, other),
            ItemSource::Address(_) => false,
        },
        ItemSource::Address(block) => match b {
            ItemSource::Port(_) => false,
            ItemSource::Address(other) => block == other,
        },
    }
}

/// Whether a move brings an operand port the word that it has already from the same source.
fn is_redundant(notes: &Notes, x: Item) -> bool
    ensures { result ≡ redundant_by notes.now x }
{
    let Item::Move { src, dst, .. } = x else {
        return false;
    };
    let Dest::Operand { unit } = dst else {
        return false;
    };
    match notes.copied(operand(unit)) {
        None => false,
        Some(has) => same_source(src, has),
    }
}

/// The items but those that bring an operand port what it has, in one walk down.
pub fn share_items(
    alloc: Global,
    notes: &mut Notes,
    m: &Machine,
    items: &[Item],
) -> Result<Vec<Item>, AllocError>
    requires { list_all (has_slot m.now) items.now ≡ true }
    ensures { IfOk result (λ v. v.items ≡ share_items m.now [] items.now) }
{
    m.rules();
    notes.begin();
    let mut kept = Vec::with_capacity(alloc, items.len())?;
    for x in items {
        if is_redundant(notes, *x) {
            continue;
        }
        notes.pass(m, kept.len() + 1, *x);
        kept.push(*x)?;
    }
    Ok(kept)
}
