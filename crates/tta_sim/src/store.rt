//! What a run holds but for control, and what its moves are about.

ghost use Rattle.std.specs.Prelude.{◌≡◌, [], replicate, IfOk};
ghost use Rattle.tta_sim.specs.Places.{HasWritten};

use crate::dues::Due;
use crate::lines::Write;
use crate::places::Places;
use crate::short::Short;
use crate::spaces::zeros;
use crate::starts::Start;
use std::alloc::{AllocError, Global};

/// The words that a run holds.
#[derive(Drop)]
pub struct Store {
    pub places: Places,
    /// How many cycles were made.
    pub cycle: u64,
    /// The data space.
    pub memory: Vec<u32>,
    /// The frame space.
    pub frame: Vec<u32>,
}

impl Store {
    /// The words at the start of a run with so many frame words: nothing was ever written, every
    /// frame word is 0, and the data words are these.
    pub fn unset(alloc: Global, frame_words: usize, memory: Vec<u32>) -> Result<Self, AllocError>
        ensures places { IfOk result (λ s. HasWritten s.places []) }
        ensures cycle { IfOk result (λ s. s.cycle ≡ 0) }
        ensures memory { IfOk result (λ s. s.memory.items ≡ memory.items) }
        ensures frame { IfOk result (λ s. s.frame.items ≡ replicate frame_words 0) }
    {
        let places = Places::unset(alloc)?;
        let frame = zeros(alloc, frame_words)?;
        Ok(Store {
            places,
            cycle: 0,
            memory,
            frame,
        })
    }
}

/// What the moves of a cycle write and start. It is of no use after the cycle, and kept only for
/// its room.
#[derive(Drop)]
pub struct CycleBuffers {
    pub writes: Short<Write>,
    pub starts: Short<Start>,
    /// The results that the operations show.
    pub dues: Short<Due>,
}

impl CycleBuffers {
    /// Nothing is done yet.
    pub fn none(alloc: Global) -> Result<Self, AllocError> {
        let writes = Short::new(alloc)?;
        let starts = Short::new(alloc)?;
        let dues = Short::new(alloc)?;
        Ok(CycleBuffers {
            writes,
            starts,
            dues,
        })
    }
}
