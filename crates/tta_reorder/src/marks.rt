//! A number for each channel and for each unit, on the way through a list.

use crate::channels::MARKED;
use std::alloc::{AllocError, Global};

/// A number, and the walk in which it was noted.
#[derive(Clone, Copy)]
struct Mark {
    walk: u32,
    number: u32,
}

const UNUSED: Mark = Mark { walk: 0, number: 0 };

/// A number for each channel and for each unit, or none. The table serves one walk after another and
/// is not cleared between them: what was noted in earlier walks counts no more.
#[derive(Drop)]
pub struct StampedMap {
    walk: u32,
    marks: Vec<Mark>,
}

impl StampedMap {
    /// A table for any number of walks. The only error is out of memory.
    pub fn new(alloc: Global) -> Result<Self, AllocError> {
        Ok(StampedMap {
            walk: 1,
            marks: vec![in alloc; UNUSED; MARKED]?,
        })
    }

    /// Begins a walk: no channel has a number.
    pub fn begin(&mut self) {
        if self.walk == u32::MAX {
            self.marks.fill(UNUSED);
            self.walk = 1;
        } else {
            self.walk += 1;
        }
    }

    /// The number of a channel, if it has one.
    pub fn get(&self, channel: u16) -> Option<u32> {
        match self.marks.get(usize::from(channel)) {
            None => None,
            Some(mark) => {
                if mark.walk == self.walk {
                    Some(mark.number)
                } else {
                    None
                }
            }
        }
    }

    /// Marks a channel; past the last channel it does nothing.
    fn put(&mut self, channel: u16, mark: Mark) {
        let n = usize::from(channel);
        if n < self.marks.len() {
            self.marks[n] = mark;
        }
    }

    /// Gives a channel a number.
    pub fn set(&mut self, channel: u16, number: u32) {
        let walk = self.walk;
        self.put(channel, Mark { walk, number });
    }

    /// Takes the number of a channel away.
    pub fn unset(&mut self, channel: u16) {
        self.put(channel, UNUSED);
    }
}
