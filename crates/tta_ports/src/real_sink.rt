//! The standard output.

ghost use Rattle.std.specs.Prelude.{◌≡◌, None};

use crate::transfer::write_whole;
use crate::{Failed, Sink};
use std::io;
use std::marker::Model;

/// The standard output of the host, which the runtime reaches. What it has taken is not shown.
///
/// Each put is handed to the host at once, so nothing is left to flush. A put of no bytes does not
/// reach the host.
#[derive(Drop)]
pub struct RealSink<R> {
    rt: R,
    faults: u64,
}

impl<R> Model for RealSink<R> {
    ghost use Rattle.std.specs.Prelude.{ℕ, ◌<◌, ◌^◌};

    ghost Value = { ℕ };

    ghost view = { λ s. s.faults };

    ghost invariant = { λ s. s.faults < 2 ^ 64 };
}

impl<R> RealSink<R> {
    /// The standard output of the host that `rt` stands for, with no fault yet.
    pub fn new(rt: R) -> Self
        ensures { result ≡ 0 }
    {
        RealSink { rt, faults: 0 }
    }
}

impl<R: Print> Sink for RealSink<R> {
    ghost output = { λ s. record { taken = None; faults = s } };

    fn put(&mut self, bytes: &[u8]) -> Result<(), Failed> {
        match write_whole(&mut io::writer(&self.rt), bytes) {
            Ok(()) => Ok(()),
            Err(Failed) => {
                self.faults = self.faults.saturating_add(1);
                Err(Failed)
            }
        }
    }
}
