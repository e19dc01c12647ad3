//! The data of a program.

ghost use Rattle.std.specs.Prelude.{◌≡◌, map, slice_set};
ghost use Rattle.tta_list.specs.Laid.{over};
ghost use Rattle.tta_program.specs.Program.{data_of, datum_of};

use crate::program::{DataLine, Program};

/// Puts a word at an address, and does nothing where the memory has none.
fn set(memory: &mut Vec<u32>, address: u32, word: u32)
    ensures { memory.new.items ≡ slice_set memory.old.items address word }
{
    let address = address as usize;
    if address < memory.len() {
        memory[address] = word;
    }
}

/// Puts each word of data at its address, the later over the earlier.
fn lay(init: &[DataLine], memory: &mut Vec<u32>)
    ensures { memory.new.items ≡ over (map datum_of init.now) memory.old.items }
{
    for datum in init {
        set(memory, datum.address, datum.value);
    }
}

/// Lays the data of a program over the words of a data memory. It takes no memory, and what lies
/// outside of it is left out.
pub fn lay_lines(p: &Program, memory: &mut Vec<u32>)
    ensures { memory.new.items ≡ over (data_of p.now) memory.old.items }
{
    lay(p.init.as_slice(), memory)
}
