//! The operations of some units, found by name and by number.

ghost use Rattle.std.specs.Prelude.{◌≡◌, ◌<◌, ◌++◌, ◌∷◌, [], None, length, map};
ghost use Rattle.std.specs.Prelude.{option_map, slice_get, IfSome, OnOk, OnErr};
ghost use Rattle.std.specs.String.{string_bytes};
ghost use Rattle.tta_ops.specs.Units.{first_at};
ghost use Rattle.tta_ops.specs.Row.{Row, names_of, place_of};

use crate::place::Place;
use indexmap::IndexMap;
use std::alloc::{AllocError, Global};
use std::marker::Model;

/// Operations with different names, each at the place that it was added at. The places stand in a row
/// of their own too, since each cycle asks for some.
#[derive(Drop)]
pub struct Operations {
    by_name: IndexMap<String, Place>,
    places: Vec<Place>,
    ghost noted: { places.items ≡ map (λ entry. entry.1) by_name.entries },
}

impl Model for Operations {
    ghost use Rattle.std.specs.Prelude.{List};
    ghost use Rattle.tta_ops.specs.Row.{Row};

    ghost Value = { List Row };

    ghost use Rattle.tta_ops.specs.Entries.{rows_of};

    ghost view = { λ s. rows_of s.by_name.entries };
}

impl Operations {
    /// No operations. It takes no memory.
    pub fn new(alloc: Global) -> Self
        ensures { result ≡ [] }
    {
        Operations {
            by_name: IndexMap::new(alloc),
            places: Vec::new(alloc),
        }
    }

    /// How many operations there are.
    pub fn len(&self) -> usize
        ensures { result ≡ length self.now }
    {
        self.by_name.len()
    }

    /// The operation of this name.
    pub fn find(&self, name: &str) -> Option<usize>
        ensures found { result ≡ first_at name.now 0 (names_of self.now) }
        ensures within { IfSome result (λ i. i < length (names_of self.now)) }
    {
        self.by_name.get_index_of(name)
    }

    /// The operation whose name has these bytes.
    pub fn find_bytes(&self, name: &[u8]) -> Option<usize>
        ensures found { result ≡ first_at name.now 0 (names_of self.now) }
        ensures within { IfSome result (λ i. i < length (names_of self.now)) }
    {
        let _ = &self.by_name;
        match str::from_utf8(name) {
            Ok(text) => self.find(text),
            Err(_) => None,
        }
    }

    /// The place of an operation.
    pub fn place(&self, op: usize) -> Option<Place>
        ensures { result ≡ place_of self.now op }
    {
        match self.places.get(op) {
            Some(place) => Some(*place),
            None => None,
        }
    }

    /// The name of an operation.
    pub fn name(&self, op: usize) -> Option<&str>
        ensures { option_map (λ text. text.now) result ≡ slice_get (names_of self.now) op }
    {
        match self.by_name.get_index(op) {
            Some((name, _)) => Some(name.as_str()),
            None => None,
        }
    }

    /// Adds an operation at the end. It fails only where there is no memory, and then nothing
    /// changes.
    pub fn push(&mut self, name: String, place: Place) -> Result<(), AllocError>
        requires { first_at (string_bytes name) 0 (names_of self.old) ≡ None }
        ensures ok { let row : Row = record { name = string_bytes name; place = place } in
            OnOk result (self.new ≡ self.old ++ row ∷ []) }
        ensures err { OnErr result (self.new ≡ self.old) }
    {
        self.places.push(place)?;
        if let Err(error) = self.by_name.insert(name, place) {
            self.places.pop();
            return Err(error.into());
        }
        Ok(())
    }
}
