//! What is noted of each place on the way down a list.

ghost use Rattle.std.specs.Prelude.{◌≡◌, slice_get, slice_set};
ghost use Rattle.tta_optim.specs.Notes.{note_in, since, copied_by, noted};

use std::alloc::{AllocError, Global};
use std::marker::Model;
use tta_arch::Machine;
use tta_moves::numbers::{PLACES, read_place, written_place};
use tta_moves::parts::sure_source;
use tta_moves::{Item, ItemSource};

/// What the last item was that wrote a place.
#[derive(Clone, Copy)]
pub struct Note {
    /// Which item it was, counted from 1; 0 where there was none.
    pub at: usize,
    /// Its source, where it had no guard.
    pub from: Option<ItemSource>,
}

/// A note, and the list on the way down which it was made, by its number.
#[derive(Clone, Copy)]
pub struct Entry {
    pub list: u64,
    pub note: Note,
}

/// No item has written a place.
const BLANK: Note = Note { at: 0, from: None };

/// An entry that is of no list.
const UNUSED: Entry = Entry {
    list: 0,
    note: BLANK,
};

/// What an entry says on the way down a list: nothing, where it is of another.
fn note_in(list: u64, e: Entry) -> Note
    ensures { result ≡ note_in list e }
{
    if e.list == list { e.note } else { BLANK }
}

/// What is noted of all places on the way down a list, which contracts see as a list by the numbers
/// of places. The table serves one list after another and is not cleared between them: the entries
/// of earlier lists count no more.
#[derive(Drop)]
pub struct Notes {
    list: u64,
    entries: Vec<Entry>,
}

impl Model for Notes {
    ghost use Rattle.std.specs.Prelude.{List, map};
    ghost use Rattle.tta_optim.specs.declared.notes.Note.{Note};
    ghost use Rattle.tta_optim.specs.Notes.{note_in, AreStamps};

    ghost Value = { List Note };

    ghost view = { λ n. map (note_in n.list) n.entries.items };

    ghost invariant = { λ n. AreStamps n.list (map (λ e. e.list) n.entries.items) };
}

impl Notes {
    ghost use Rattle.std.specs.Prelude.{replicate};
    ghost use Rattle.tta_optim.specs.Notes.{blank};

    /// A table for any number of lists. The only error is out of memory.
    pub fn new(alloc: Global) -> Result<Self, AllocError> {
        Ok(Notes {
            list: 1,
            entries: vec![in alloc; UNUSED; PLACES]?,
        })
    }

    /// Goes to the begin of a list: no item has written any place.
    pub fn begin(&mut self)
        ensures { self.new ≡ replicate 641 blank }
    {
        if self.list == u64::MAX {
            self.entries.fill(UNUSED);
            self.list = 1;
        } else {
            self.list += 1;
        }
    }

    /// The note of a place, if there is such a place.
    fn note(&self, place: usize) -> Option<Note>
        ensures { result ≡ slice_get self.now place }
    {
        match self.entries.get(place) {
            None => None,
            Some(e) => Some(note_in(self.list, *e)),
        }
    }

    /// Which item last wrote a place, 0 where none did.
    fn since(&self, place: Option<usize>) -> usize
        ensures { result ≡ since self.now place }
    {
        let Some(n) = place else {
            return 0;
        };
        match self.note(n) {
            None => 0,
            Some(note) => note.at,
        }
    }

    /// The source whose word a place still has: that of the last item that wrote it, where it had
    /// no guard, and where what the source is was not written since.
    pub fn copied(&self, place: usize) -> Option<ItemSource>
        ensures { result ≡ copied_by self.now place }
    {
        let Some(note) = self.note(place) else {
            return None;
        };
        let Some(from) = note.from else {
            return None;
        };
        if self.since(read_place(from)) <= note.at {
            Some(from)
        } else {
            None
        }
    }

    /// Notes something of a place; past the last place it does nothing.
    fn put(&mut self, place: usize, note: Note)
        ensures { self.new ≡ slice_set self.old place note }
    {
        if place < self.entries.len() {
            self.entries[place] = Entry {
                list: self.list,
                note,
            };
        }
    }

    /// Goes past the item with this number, counted from 1.
    pub fn pass(&mut self, m: &Machine, at: usize, x: Item)
        ensures { self.new ≡ noted m.now self.old at x }
    {
        if let Some(place) = written_place(m, x) {
            let from = sure_source(x);
            self.put(place, Note { at, from });
        }
    }
}
