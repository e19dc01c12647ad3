//! Scratch registers that a list leaves alone.

ghost use Rattle.std.specs.Prelude.{◌≡◌, ◌==◌, ◌&&◌, ◌<◌, not, false, IfOk, OnOk};
ghost use Rattle.std.specs.Option.{option_map_or};
ghost use Rattle.std.specs.List.{list_all};
ghost use Rattle.tta_arch.specs.Effects.{KeptReg, same_place};
ghost use Rattle.tta_moves.specs.Touches.{reads, is_at, place_of_source, source_of, guard_of};
ghost use Rattle.tta_moves.specs.Touches.{guard_place};
ghost use Rattle.tta_moves.specs.Runs.{lives};
ghost use Rattle.tta_loadelim.specs.Copied.{AreSpare};

use std::alloc::{AllocError, Global};
use tta_arch::Source;
use tta_moves::parts::source_of;
use tta_moves::{BlockList, Item, ItemSource};

/// Whether an item has a register as its guard.
fn is_guarded_by(x: Item, file: u8, index: u8) -> bool
    ensures { result ≡ option_map_or (λ g. same_place (guard_place g) (KeptReg file index))
        (guard_of x) false }
{
    match x {
        Item::Move { guard, .. } => match guard {
            None => false,
            Some(g) => g.file == file && g.index == index,
        },
        Item::Long { .. } => false,
    }
}

/// Whether an item takes its word from a register.
fn takes(x: Item, file: u8, index: u8) -> bool
    ensures { result ≡ is_at (KeptReg file index) (place_of_source (source_of x)) }
{
    let ItemSource::Port(from) = source_of(x) else {
        return false;
    };
    match from {
        Source::Reg { file: f, index: i } => f == file && i == index,
        _ => false,
    }
}

/// Whether an item reads a register.
fn reads(x: Item, file: u8, index: u8) -> bool
    ensures { result ≡ reads (KeptReg file index) x }
{
    takes(x, file, index) || is_guarded_by(x, file, index)
}

/// Whether no item reads a register.
fn is_unread(items: &[Item], file: u8, index: u8) -> bool
    ensures { result ≡ list_all (λ x. not (reads (KeptReg file index) x)) items.now }
{
    items.iter().all(|x| !reads(*x, file, index))
}

/// Whether a register is one of some.
fn lives(live: &[(u8, u8)], file: u8, index: u8) -> bool
    ensures { result ≡ lives live.now (KeptReg file index) }
{
    live.iter().any(|r| r.0 == file && r.1 == index)
}

/// Adds a scratch register that a list leaves alone, and that is not read after it. The only error is
/// out of memory.
fn add_spare(fresh: &mut Vec<(u8, u8)>, hub: u8, index: u8, b: &BlockList) -> Result<(), AllocError>
    requires { index < 3 }
    ensures { OnOk result (AreSpare hub b.now fresh.old.items
        → AreSpare hub b.now fresh.new.items) }
{
    if lives(b.live_out.as_slice(), hub, index) {
        return Ok(());
    }
    if is_unread(b.items.as_slice(), hub, index) {
        fresh.push((hub, index))?;
    }
    Ok(())
}

/// The scratch registers that a list leaves alone. The first, by which ways go, is not among them.
/// The only error is out of memory.
pub fn spare_registers(alloc: Global, hub: u8, b: &BlockList) -> Result<Vec<(u8, u8)>, AllocError>
    ensures { IfOk result (λ v. AreSpare hub b.now v.items) }
{
    let mut fresh = Vec::with_capacity(alloc, 2)?;
    add_spare(&mut fresh, hub, 2, b)?;
    add_spare(&mut fresh, hub, 1, b)?;
    Ok(fresh)
}
