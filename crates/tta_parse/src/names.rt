//! Names that were declared.

ghost use Rattle.std.specs.Prelude.{◌≡◌, ◌+◌, ◌++◌, ◌∷◌, [], length, Some, None, OnOk, OnErr};
ghost use Rattle.tta_parse.specs.Calls.{KeepsOtherNames};
ghost use Rattle.tta_parse.specs.Names.{named_in};

use indexmap::IndexMap;
use std::alloc::{AllocError, Global};
use std::marker::Model;

/// Names in the order of their declarations, each with what it names. A look-up does not walk them.
/// A contract sees them as the list of the pairs.
#[derive(Drop)]
pub struct Names<P> {
    by_name: IndexMap<Vec<u8>, P>,
}

impl<P> Model for Names<P> {
    ghost use Rattle.std.specs.Prelude.{ℕ, List, map};

    ghost Value = { List (List ℕ × P) };

    ghost view = { λ s. map (λ e. (e.0.items, e.1)) s.by_name.entries };
}

impl<P> Names<P> {
    /// No names. This takes no memory.
    pub fn new(alloc: Global) -> Names<P>
        ensures { result ≡ [] }
    {
        Names {
            by_name: IndexMap::new(alloc),
        }
    }

    /// How many names were declared.
    pub fn len(&self) -> usize
        ensures { result ≡ length self.now }
    {
        self.by_name.len()
    }
}

impl<P: Copy> Names<P> {
    /// What a name names, and `None` for a name that was not declared.
    pub fn get(&self, name: &[u8]) -> Option<P>
        ensures { result ≡ named_in self.now name.now }
    {
        self.by_name.get(name).copied()
    }

    /// Declares a name that was not declared, after the others. An `Err` is lack of memory, and
    /// leaves the names as they were.
    pub fn add(&mut self, alloc: Global, name: &[u8], place: P) -> Result<(), AllocError>
        requires { named_in self.old name.now ≡ None }
        ensures ok { OnOk result (self.new ≡ self.old ++ (name.now, place) ∷ []) }
        ensures err { OnErr result (self.new ≡ self.old) }
        ensures found { OnOk result (named_in self.new name.now ≡ Some place) }
        ensures others { OnOk result (KeepsOtherNames name.now self.old self.new) }
        ensures len { OnOk result (length self.new ≡ length self.old + 1) }
    {
        let key = Vec::from_slice(alloc, name)?;
        self.by_name.insert(key, place)?;
        Ok(())
    }
}
