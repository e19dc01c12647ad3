//! Code with data.

ghost use Rattle.std.specs.Prelude.{◌≡◌, slice_set};
ghost use Rattle.tta_list.specs.Laid.{over};
ghost use Rattle.tta_code.specs.Whole.{laid_by};

use crate::code::Code;
use std::marker::Model;
use tta_list::Items;

/// A word that the data space has at first.
#[derive(Clone, Copy, Debug, PartialEq, Eq)]
pub struct Datum {
    pub address: u32,
    pub value: u32,
}

/// The code of a machine with the data that it begins with, whose addresses ascend.
#[derive(Drop)]
pub struct Whole {
    pub code: Code,
    pub init: Items<Datum>,
}

impl Model for Whole {
    ghost use Rattle.std.specs.Prelude.{◌≡◌, true};
    ghost use Rattle.tta_code.specs.Whole.{Whole, rises};

    ghost Value = { Whole };

    ghost view = { λ w. record { code = w.code; init = w.init } };

    ghost invariant = { λ w. rises w.init ≡ true };
}

/// Puts a word at an address, and does nothing where the memory has none.
fn set(memory: &mut Vec<u32>, address: u32, word: u32)
    ensures { memory.new.items ≡ slice_set memory.old.items address word }
{
    let address = address as usize;
    if address < memory.len() {
        memory[address] = word;
    }
}

/// Lays data over the words of a data space. It takes no memory, and what lies outside of the space
/// is left out.
pub fn lay(init: &[Datum], memory: &mut Vec<u32>)
    ensures { memory.new.items ≡ over (laid_by init.now) memory.old.items }
{
    for datum in init {
        set(memory, datum.address, datum.value);
    }
}
