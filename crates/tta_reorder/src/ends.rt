//! Whether two tables say the same of what the next list finds.

ghost use Rattle.std.specs.Prelude.{◌≡◌, ◌==◌, true, slice_index};
ghost use Rattle.std.specs.List.{list_all};
ghost use Rattle.tta_arch.specs.Effects.{KeptReg};
ghost use Rattle.tta_moves.specs.Numbers.{is_place, place_number};
ghost use Rattle.tta_reorder.specs.Rows.{same_ends, same_part, same_parts};

use crate::channels::{DATA, ENDING, FRAME, TRAFFIC};
use crate::operations::stores_frame;
use crate::rows::Table;
use crate::slots::part_at;
use tta_arch::Machine;
use tta_moves::Item;
use tta_moves::numbers::{register, return_address};

/// Whether registers have numbers as those of a machine.
pub fn in_limits(live: &[(u8, u8)]) -> bool
    ensures { result ≡ list_all (λ r. is_place (KeptReg r.0 r.1)) live.now }
{
    live.iter().all(|r| r.0 < 8 && r.1 < 64)
}

/// Whether two tables have the same entry for a channel.
fn same_entry(a: &Table, b: &Table, channel: usize) -> bool
    ensures { result ≡ (slice_index a.now channel == slice_index b.now channel) }
{
    a.entry(Some(channel)) == b.entry(Some(channel))
}

/// Whether they have the same entries for registers.
fn same_live(live: &[(u8, u8)], a: &Table, b: &Table) -> bool
    ensures { result ≡ list_all (λ r. slice_index a.now (place_number (KeptReg r.0 r.1))
        == slice_index b.now (place_number (KeptReg r.0 r.1))) live.now }
{
    live.iter().all(|r| same_entry(a, b, register(r.0, r.1)))
}

/// Whether they have the same entries for what the next list finds, but for the frame space.
pub fn same_ends(live: &[(u8, u8)], a: &Table, b: &Table) -> bool
    ensures { result ≡ same_ends live.now a.now b.now }
{
    same_live(live, a, b)
        && (same_entry(a, b, return_address())
            && (same_entry(a, b, DATA) && (same_entry(a, b, TRAFFIC) && same_entry(a, b, ENDING))))
}

/// Whether they have the same entry for a part of the frame space, if an item stores into it.
fn same_part(m: &Machine, part: u16, x: Item, a: &Table, b: &Table) -> bool
    ensures { result ≡ same_part m.now part x a.now b.now }
{
    !stores_frame(m, x) || same_entry(a, b, FRAME + usize::from(part))
}

/// Whether they have the same entry for each part of the frame space that an item stores into.
pub fn same_parts(m: &Machine, parts: &[u16], items: &[Item], a: &Table, b: &Table) -> bool
    ensures { result ≡ true → same_parts m.now parts.now a.now b.now 0 items.now ≡ true }
{
    for (n, x) in items.iter().enumerate() {
        if !same_part(m, part_at(parts, n), *x, a, b) {
            return false;
        }
    }
    true
}
