//! The text that a command puts, kept in memory.

ghost use Rattle.std.specs.Prelude.{◌≡◌, [], Some};

use std::alloc::Global;
use std::marker::Model;
use tta_ports::{Failed, Sink};

/// All that a command has put. A put fails where memory lacks, and then takes nothing.
#[derive(Drop)]
pub struct KeptText {
    bytes: Vec<u8>,
    faults: u64,
}

impl Model for KeptText {
    ghost use Rattle.std.specs.Prelude.{◌<◌, ◌^◌, Some};
    ghost use Rattle.tta_ports.specs.Output.{Output};

    ghost Value = { Output };

    ghost view = { λ s. record { taken = Some s.bytes.items; faults = s.faults } };

    ghost invariant = { λ s. s.faults < 2 ^ 64 };
}

impl KeptText {
    /// Nothing yet.
    pub fn new(alloc: Global) -> Self
        ensures { result ≡ record { taken = Some []; faults = 0 } }
    {
        KeptText {
            bytes: Vec::new(alloc),
            faults: 0,
        }
    }

    /// All that was put.
    pub fn bytes(&self) -> &[u8]
        ensures { Some result.now ≡ self.now.taken }
    {
        &self.bytes
    }
}

impl Sink for KeptText {
    ghost output = { λ s. s };

    fn put(&mut self, bytes: &[u8]) -> Result<(), Failed> {
        if self.bytes.extend_from_slice(bytes).is_err() {
            self.faults = self.faults.saturating_add(1);
            return Err(Failed);
        }
        Ok(())
    }
}
