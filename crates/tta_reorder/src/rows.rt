//! What each item of a list finds: which item last changed each channel that it asks for.

ghost use Rattle.std.specs.Prelude.{◌≡◌, ◌<◌, ◌^◌, not, ◌&&◌, slice_set};
ghost use Rattle.tta_moves.specs.Touches.{is_control, is_unguarded};
ghost use Rattle.tta_reorder.specs.Rows.{last_in, none_changed, ending_number, if_so};
ghost use Rattle.tta_reorder.specs.Rows.{entry, found, put, passed, same_found};

use crate::channels::{CHANNELS, DATA, ENDING, FRAME, TRAFFIC, if_so};
use crate::operations::{
    operand_number, passes_words, stores_data, stores_frame, uses_data, uses_frame,
};
use std::alloc::{AllocError, Global};
use std::marker::Model;
use tta_arch::Machine;
use tta_moves::Item;
use tta_moves::numbers::{guard_place, read_place, written_place};
use tta_moves::parts::{is_control, is_unguarded, source_of};

/// The numbers of the items, counted from 1, that last changed what an item asks for: its source,
/// its guard, its operand, what it writes where it has a guard, the two spaces, the input with the
/// output, and how the list goes on. 0 stands for none, and for what it does not ask for.
#[derive(Clone, Copy)]
pub struct Found {
    pub source: usize,
    pub guard: usize,
    pub operand: usize,
    pub own: usize,
    pub memory: usize,
    pub frame: usize,
    pub traffic: usize,
    pub ending: usize,
}

/// Whether two items find the same.
pub fn same_found(a: Found, b: Found) -> bool
    ensures { result ≡ same_found a b }
{
    a.source == b.source
        && (a.guard == b.guard
            && (a.operand == b.operand
                && (a.own == b.own
                    && (a.memory == b.memory
                        && (a.frame == b.frame
                            && (a.traffic == b.traffic && a.ending == b.ending))))))
}

/// An entry of a table: the list on the way down which it was made, by its number, and the number of
/// an item.
#[derive(Clone, Copy)]
pub struct Entry {
    pub list: u64,
    pub last: usize,
}

/// An entry that is of no list.
const UNUSED: Entry = Entry { list: 0, last: 0 };

/// What an entry says on the way down a list: nothing, where it is of another.
fn last_in(list: u64, e: Entry) -> usize
    ensures { result ≡ last_in list e }
{
    if e.list == list { e.last } else { 0 }
}

/// Which item last changed each channel, counted from 1, on the way down a list; 0 stands for none.
/// Contracts see it as a list by the numbers of channels. The table serves one list after another
/// and is not cleared between them: the entries of earlier lists count no more.
#[derive(Drop)]
pub struct Table {
    list: u64,
    entries: Vec<Entry>,
}

impl Model for Table {
    ghost use Rattle.std.specs.Prelude.{ℕ, List, map};
    ghost use Rattle.tta_reorder.specs.Rows.{last_in, AreStamps};

    ghost Value = { List ℕ };

    ghost view = { λ t. map (last_in t.list) t.entries.items };

    ghost invariant = { λ t. AreStamps t.list (map (λ e. e.list) t.entries.items) };
}

impl Table {
    /// A table for any number of lists. The only error is out of memory.
    pub fn new(alloc: Global) -> Result<Self, AllocError> {
        Ok(Table {
            list: 1,
            entries: vec![in alloc; UNUSED; CHANNELS]?,
        })
    }

    /// Goes to the begin of a list: no item has changed any channel.
    pub fn begin(&mut self)
        ensures { self.new ≡ none_changed }
    {
        if self.list == u64::MAX {
            self.entries.fill(UNUSED);
            self.list = 1;
        } else {
            self.list += 1;
        }
    }

    /// The entry of a channel, 0 where none is given.
    pub fn entry(&self, channel: Option<usize>) -> usize
        ensures { result ≡ entry self.now channel }
    {
        let Some(k) = channel else {
            return 0;
        };
        match self.entries.get(k) {
            None => 0,
            Some(e) => last_in(self.list, *e),
        }
    }

    /// Notes the latest item at a channel; past the last channel it does nothing.
    fn put_at(&mut self, channel: usize, n: usize)
        ensures { self.new ≡ slice_set self.old channel n }
    {
        if channel < self.entries.len() {
            self.entries[channel] = Entry {
                list: self.list,
                last: n,
            };
        }
    }

    /// Notes the latest item at a channel, if there is one.
    fn put(&mut self, channel: Option<usize>, n: usize)
        ensures { self.new ≡ put self.old channel n }
    {
        if let Some(k) = channel {
            self.put_at(k, n);
        }
    }

    /// What an item with a guard finds of what it may change.
    fn own(&self, m: &Machine, x: Item) -> usize
        ensures { result ≡ (found m.now 0 self.now x).own }
    {
        if is_unguarded(x) {
            0
        } else {
            self.entry(written_place(m, x))
        }
    }

    /// What a control item with a guard finds of how the list goes on.
    fn ending(&self, x: Item) -> usize
        ensures { result ≡ entry self.now
            (if_so (is_control x && not (is_unguarded x)) ending_number) }
    {
        let asks = is_control(x) && !is_unguarded(x);
        self.entry(if_so(asks, ENDING))
    }

    /// What an item finds that uses this part of the frame space, if it uses one.
    pub fn found(&self, m: &Machine, part: u16, x: Item) -> Found
        ensures { result ≡ found m.now part self.now x }
    {
        Found {
            source: self.entry(read_place(source_of(x))),
            guard: self.entry(guard_place(x)),
            operand: self.entry(operand_number(m, x)),
            own: self.own(m, x),
            memory: self.entry(if_so(uses_data(m, x), DATA)),
            frame: self.entry(if_so(uses_frame(m, x), FRAME + usize::from(part))),
            traffic: self.entry(if_so(passes_words(m, x), TRAFFIC)),
            ending: self.ending(x),
        }
    }

    /// Goes past the item with this number, which uses this part of the frame space, if it uses one.
    #[tactic(auto, unfolding(crate::specs::Rows::passed))]
    pub fn pass(&mut self, m: &Machine, part: u16, n: usize, x: Item)
        requires { n < 2 ^ 63 }
        ensures { self.new ≡ passed m.now part self.old n x }
    {
        self.put(written_place(m, x), n + 1);
        self.put(if_so(stores_data(m, x), DATA), n + 1);
        self.put(if_so(stores_frame(m, x), FRAME + usize::from(part)), n + 1);
        self.put(if_so(passes_words(m, x), TRAFFIC), n + 1);
        self.put(if_so(is_control(x), ENDING), n + 1);
    }
}
