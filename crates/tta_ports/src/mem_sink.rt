//! A sink in memory, for tests: puts fail where they are asked to, and where there is no room.

ghost use Rattle.std.specs.Prelude.{◌≡◌, ◌+◌, ◌<◌, ◌≤◌, ◌^◌, ◌++◌, length, vec_len, vec_capacity};
ghost use Rattle.std.specs.Prelude.{IfOk, Some, is_err};

use crate::{Failed, Sink};
use std::alloc::{AllocError, Global};
use std::marker::Model;

/// A sink with room for so many bytes. Puts are numbered from 1, whatever they answer. They fail
/// exactly where their numbers were handed in, and where the bytes go past the room.
///
/// A put whose number was handed in takes the first half of its bytes, rounded down, and no more
/// than fits. Any other that goes past the room takes what fits.
#[derive(Drop)]
pub struct MemSink {
    bytes: Vec<u8>,
    room: usize,
    failing: Vec<u64>,
    puts: u64,
    faults: u64,
}

impl Model for MemSink {
    ghost use Rattle.std.specs.Prelude.{◌<◌, ◌≤◌, ◌^◌, vec_len, vec_capacity};
    ghost use Rattle.tta_ports.specs.Buffer.{Buffer};

    ghost Value = { Buffer };

    ghost view = { λ s. record {
      taken = s.bytes.items;
      room = s.room;
      failing = s.failing.items;
      puts = s.puts;
      faults = s.faults;
    } };

    ghost invariant = { λ s. (vec_len s.bytes ≤ s.room)
        × (s.room ≤ vec_capacity s.bytes)
        × (s.faults < 2 ^ 64) };
}

/// Puts bytes at the end of others. There is room for them, so this takes no memory.
fn append(to: &mut Vec<u8>, bytes: &[u8])
    requires { vec_len to.old + length bytes.now ≤ vec_capacity to.old }
    ensures items { to.new.items ≡ to.old.items ++ bytes.now }
    ensures room { vec_capacity to.old ≤ vec_capacity to.new }
{
    to.extend_from_slice(bytes).unwrap();
}

impl MemSink {
    ghost use Rattle.tta_ports.specs.Buffer.{new_buffer, put_is_failing, put_counted};

    /// Nothing taken yet. It takes its memory now: room for `room` bytes. `failing` has the
    /// numbers of the puts that are to fail.
    pub fn new(alloc: Global, room: usize, failing: Vec<u64>) -> Result<Self, AllocError>
        ensures { IfOk result (λ s. s ≡ new_buffer room failing.items) }
    {
        Ok(MemSink {
            bytes: Vec::with_capacity(alloc, room)?,
            room,
            failing,
            puts: 0,
            faults: 0,
        })
    }

    /// All the bytes that it has taken.
    pub fn bytes(&self) -> &[u8]
        ensures { result.now ≡ self.now.taken }
    {
        &self.bytes
    }

    /// Counts a put, and says whether it is to fail.
    fn begin_put(&mut self) -> bool
        ensures answer { result ≡ put_is_failing self.old }
        ensures counted { self.new ≡ put_counted self.old }
        ensures kept { self.old.faults < 2 ^ 64 }
    {
        self.puts = self.puts.saturating_add(1);
        self.failing.contains(&self.puts)
    }
}

impl Sink for MemSink {
    ghost use Rattle.tta_ports.specs.Faults.{CountsFault};
    ghost use Rattle.tta_ports.specs.Sink.{PutsBytes};
    ghost use Rattle.tta_ports.specs.Buffer.{put_fails, after_put};

    ghost output = { λ s. record { taken = Some s.taken; faults = s.faults } };

    fn put(&mut self, bytes: &[u8]) -> Result<(), Failed>
        // It fails exactly where its number is to fail and where the bytes go past the room.
        ensures exact { is_err result ≡ put_fails self.old bytes.now }
        ensures after { self.new ≡ after_put bytes.now self.old }

        // What every sink says.
        ensures grows { PutsBytes bytes.now (Some self.old.taken) (Some self.new.taken) result }
        ensures cause { CountsFault (is_err result) self.old.faults self.new.faults }
        ensures later { self.old.faults ≤ self.new.faults }
        ensures bounded { self.new.faults < 2 ^ 64 }
    {
        let must_fail = self.begin_put();
        let wanted = if must_fail {
            bytes.len() / 2
        } else {
            bytes.len()
        };
        let count = wanted.min(self.room - self.bytes.len());
        append(&mut self.bytes, &bytes[..count]);
        if must_fail || count < bytes.len() {
            self.faults = self.faults.saturating_add(1);
            return Err(Failed);
        }
        Ok(())
    }
}
