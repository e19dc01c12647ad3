//! Which places are wanted, on the way up a list.

ghost use Rattle.std.specs.Prelude.{◌≡◌, option_map, if◌then◌else◌, ◌&&◌, nat_lt, Some, None};
ghost use Rattle.tta_arch.specs.Effects.{KeptReg};
ghost use Rattle.tta_moves.specs.Touches.{target_of_item};
ghost use Rattle.tta_moves.specs.Numbers.{place_number};
ghost use Rattle.tta_moves.specs.Forms.{register_of};
ghost use Rattle.tta_optim.specs.Notes.{wanted_at};

use std::alloc::{AllocError, Global};
use std::marker::Model;
use tta_arch::{Dest, Machine};
use tta_moves::Item;
use tta_moves::numbers::{PLACES, guard_place, immediate, read_place, register, written_place};
use tta_moves::parts::{is_unguarded, source_of};

/// Whether the word of each place is read later, on the way up a list, which contracts see as a list
/// by the numbers of places. The table serves one list after another and is not cleared between
/// them: a place is wanted where its mark is the number of the list.
#[derive(Drop)]
pub struct LiveOperands {
    list: u64,
    marks: Vec<u64>,
}

impl Model for LiveOperands {
    ghost use Rattle.std.specs.Prelude.{List, Bool, map, ◌==◌};
    ghost use Rattle.tta_optim.specs.Notes.{AreStamps};

    ghost Value = { List Bool };

    ghost view = { λ w. map (λ mark. mark == w.list) w.marks.items };

    ghost invariant = { λ w. AreStamps w.list w.marks.items };
}

/// The number of the register or immediate register that an item writes.
fn written_register(x: Item) -> Option<usize>
    ensures { result ≡ option_map place_number (register_of (target_of_item x)) }
{
    match x {
        Item::Move { dst, .. } => match dst {
            Dest::Reg { file, index } => Some(register(file, index)),
            _ => None,
        },
        Item::Long { imm, reg, .. } => Some(immediate(imm, reg)),
    }
}

/// The number of a register that is within the limits of machines.
fn live_register(on: (u8, u8)) -> Option<usize>
    ensures { result ≡ (if nat_lt on.0 8 && nat_lt on.1 64
        then Some (place_number (KeptReg on.0 on.1)) else None) }
{
    if on.0 < 8 && on.1 < 64 {
        Some(register(on.0, on.1))
    } else {
        None
    }
}

/// The mark of a place on the way up a list.
fn mark_of(list: u64, is: bool) -> u64
    ensures { result ≡ (if is then list else 0) }
{
    if is { list } else { 0 }
}

impl LiveOperands {
    ghost use Rattle.std.specs.Prelude.{replicate, false};
    ghost use Rattle.tta_optim.specs.Notes.{set_wanted, dead_by, wanted_before, wanted_behind};

    /// A table for any number of lists. The only error is out of memory.
    pub fn new(alloc: Global) -> Result<Self, AllocError> {
        Ok(LiveOperands {
            list: 1,
            marks: vec![in alloc; 0; PLACES]?,
        })
    }

    /// Goes to another list: nothing is wanted.
    fn begin(&mut self)
        ensures { self.new ≡ replicate 641 false }
    {
        if self.list == u64::MAX {
            self.marks.fill(0);
            self.list = 1;
        } else {
            self.list += 1;
        }
    }

    /// Goes to the end of a list, after which the registers are wanted that are read there, and the
    /// return address.
    pub fn end(&mut self, live: &[(u8, u8)])
        ensures { self.new ≡ wanted_behind live.now (replicate 641 false) }
    {
        self.begin();
        self.set(Some(640), true);
        let mut first = live.len();
        while first > 0 {
            first -= 1;
            self.set(live_register(live[first]), true);
        }
    }

    /// Notes whether a place is wanted, if there is such a place.
    fn set(&mut self, place: Option<usize>, is: bool)
        ensures { self.new ≡ set_wanted self.old place is }
    {
        let Some(n) = place else {
            return;
        };
        if n < self.marks.len() {
            self.marks[n] = mark_of(self.list, is);
        }
    }

    /// Whether a place is wanted; past the last place none is.
    fn is_wanted(&self, place: usize) -> bool
        ensures { result ≡ wanted_at self.now place }
    {
        match self.marks.get(place) {
            None => false,
            Some(mark) => *mark == self.list,
        }
    }

    /// Whether an item writes a register or an immediate register that is not wanted.
    pub fn is_dead(&self, x: Item) -> bool
        ensures { result ≡ dead_by self.now x }
    {
        match written_register(x) {
            None => false,
            Some(place) => !self.is_wanted(place),
        }
    }

    /// Goes before an item: what it writes in any case is not wanted, and what it reads is.
    pub fn before(&mut self, m: &Machine, x: Item)
        ensures { self.new ≡ wanted_before m.now self.old x }
    {
        if is_unguarded(x) {
            self.set(written_place(m, x), false);
        }
        self.set(guard_place(x), true);
        self.set(read_place(source_of(x)), true);
    }
}
