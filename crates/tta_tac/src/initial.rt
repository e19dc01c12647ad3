//! The data lines of a text.

ghost use Rattle.std.specs.Prelude.{◌≡◌, ◌++◌, ◌∷◌, [], false, OnOk, IfOk};
ghost use Rattle.tta_program.specs.declared.program.DataLine.{DataLine as Line};
ghost use Rattle.tta_tac.specs.FirstPass.{has_address};

use indexmap::IndexMap;
use std::alloc::{AllocError, Global};
use std::marker::Model;
use tta_list::Items;
use tta_program::DataLine;

/// A word of data, and the line that it stands in.
#[derive(Clone, Copy)]
struct Datum {
    value: u32,
    line: u32,
}

/// The data lines that were read, of which no two have one address. A look-up by address does not
/// walk them. A contract sees them as their list.
#[derive(Drop)]
pub struct InitialData {
    by_address: IndexMap<u32, Datum>,
}

impl Model for InitialData {
    ghost use Rattle.std.specs.Prelude.{List, map};
    ghost use Rattle.tta_program.specs.declared.program.DataLine.{DataLine};

    ghost Value = { List DataLine };

    ghost view = { λ s. map (λ e. record {
      address = e.0;
      value = e.1.value;
      line = e.1.line;
    }) s.by_address.entries };
}

impl InitialData {
    /// No data. It takes no memory.
    pub fn new(alloc: Global) -> Self
        ensures { result ≡ [] }
    {
        InitialData {
            by_address: IndexMap::new(alloc),
        }
    }

    /// Whether there is a word for an address.
    pub fn has(&self, address: u32) -> bool
        ensures { result ≡ has_address self.now address }
    {
        self.by_address.contains_key(&address)
    }

    /// Adds a word for an address that has none, after the others. An `Err` is out of memory.
    pub fn add(&mut self, address: u32, value: u32, line: u32) -> Result<(), AllocError>
        requires { has_address self.old address ≡ false }
        ensures { let datum : Line = record { address = address; value = value; line = line } in
            OnOk result (self.new ≡ self.old ++ datum ∷ []) }
    {
        self.by_address.insert(address, Datum { value, line })?;
        Ok(())
    }

    /// The data lines in the order of the text. An `Err` is out of memory.
    pub fn to_items(&self, alloc: Global) -> Result<Items<DataLine>, AllocError>
        ensures { IfOk result (λ items. items ≡ self.now) }
    {
        let mut items = Items::new(alloc);
        for place in 0..self.by_address.len() {
            let (address, datum) = self.by_address.get_index(place).unwrap();
            items.push(DataLine {
                address: *address,
                value: datum.value,
                line: datum.line,
            })?;
        }
        Ok(items)
    }
}
