//! A short list.

ghost use Rattle.std.specs.Prelude.{◌≡◌, ◌<◌, [], ◌∷◌, ◌++◌, length, IfOk};

use std::alloc::{AllocError, Global};
use std::marker::Model;

/// A list of at most 32 values, for which there is room from the start.
#[derive(Drop)]
pub struct Short<T: Drop> {
    values: Vec<T>,
}

impl<T: Drop> Model for Short<T> {
    ghost use Rattle.std.specs.Prelude.{◌≤◌, List};
    ghost use Rattle.std.specs.Vec.{vec_capacity};

    ghost Value = { List T };

    ghost view = { λ s. s.values.items };

    ghost invariant = { λ s. 32 ≤ vec_capacity s.values };
}

impl<T: Drop> Short<T> {
    /// An empty list with room for 32 values. An `Err` is out of memory.
    pub fn new(alloc: Global) -> Result<Self, AllocError>
        ensures { IfOk result (λ s. s ≡ []) }
    {
        Ok(Short {
            values: Vec::with_capacity(alloc, 32)?,
        })
    }

    /// The values in order.
    pub fn as_slice(&self) -> &[T]
        ensures { result.now ≡ self.now }
    {
        self.values.as_slice()
    }

    /// Takes all values out.
    pub fn clear(&mut self)
        ensures { self.new ≡ [] }
    {
        self.values.clear();
    }

    /// Puts a value at the end, for which there is room.
    pub fn push(&mut self, value: T)
        requires { length self.old < 32 }
        ensures { self.new ≡ self.old ++ value ∷ [] }
    {
        self.values.push_reserved(value);
    }
}
