//! A list of values.

ghost use Rattle.std.specs.Prelude.{◌≡◌, [], ◌∷◌, IfOk};

use std::alloc::{AllocError, AllocFailed, Global};
use std::marker::Model;

/// A list that a contract sees as the list of its values, and not as a buffer.
#[derive(Drop)]
pub struct Items<T> {
    values: Vec<T>,
}

impl<T> Model for Items<T> {
    ghost use Rattle.std.specs.Prelude.{List};

    ghost Value = { List T };

    ghost view = { λ s. s.values.items };
}

impl<T> Items<T> {
    ghost use Rattle.std.specs.Prelude.{◌≡◌, ◌<◌, ◌==◌, [], ◌∷◌, ◌++◌, length, slice_get, OnErr};
    ghost use Rattle.std.specs.Prelude.{OnOk};
    ghost use Rattle.std.specs.Borrow.{sem};
    ghost use Rattle.tta_list.specs.Lends.{LendsItem};

    /// The empty list. It takes no memory.
    pub fn new(alloc: Global) -> Self
        ensures { result ≡ [] }
    {
        Items {
            values: Vec::new(alloc),
        }
    }

    /// The values of a vector.
    pub fn of(values: Vec<T>) -> Self
        ensures { result ≡ values.items }
    {
        Items { values }
    }

    /// How many values there are.
    pub fn len(&self) -> usize
        ensures { result ≡ length self.now }
    {
        self.values.len()
    }

    /// Whether there is none.
    pub fn is_empty(&self) -> bool
        ensures { result ≡ (length self.now == 0) }
    {
        self.values.is_empty()
    }

    /// All of them, in order.
    pub fn as_slice(&self) -> &[T]
        ensures { result.now ≡ self.now }
    {
        self.values.as_slice()
    }

    /// The value at a place, to be changed there.
    pub fn at_mut(&mut self, index: usize) -> &mut T
        requires { index < length self.old }
        ensures* writes_back { sem 𝓛 (LendsItem T.row self.entry index result) }
        ensures value { slice_get self.old index ≡ Some result.now }
    {
        &mut self.values[index]
    }

    /// Puts a value at the end. It fails only where there is no memory, and then nothing changes.
    pub fn push(&mut self, value: T) -> Result<(), AllocFailed<T>>
        ensures ok { OnOk result (self.new ≡ self.old ++ value ∷ []) }
        ensures err { OnErr result (self.new ≡ self.old) }
    {
        self.values.push(value)?;
        Ok(())
    }
}

impl<T: Drop> Items<T> {
    /// The list of one value.
    pub fn one(alloc: Global, value: T) -> Result<Self, AllocError>
        ensures { IfOk result (λ s. s ≡ value ∷ []) }
    {
        let mut values = Vec::new(alloc);
        values.push(value)?;
        Ok(Items { values })
    }
}
