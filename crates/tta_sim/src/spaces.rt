//! The data space, the frame space and the output.

ghost use Rattle.std.specs.Prelude.{◌≡◌, fold, option_map, replicate, slice_index};
ghost use Rattle.std.specs.Prelude.{slice_set, IfOk};
ghost use Rattle.std.specs.List.{find};
ghost use Rattle.tta_arch.specs.Effects.{store_data, store_frame};
ghost use Rattle.tta_sim.specs.Starts.{puts};

use crate::starts::Start;
use std::alloc::{AllocError, Global};
use tta_arch::Op;

/// A space of `count` words, each 0.
pub fn zeros(alloc: Global, count: usize) -> Result<Vec<u32>, AllocError>
    ensures { IfOk result (λ v. v.items ≡ replicate count 0) }
{
    let words = vec![in alloc; 0; count]?;
    Ok(words)
}

/// The word at an address, 0 outside the space.
#[inline(always)]
pub fn load(space: &[u32], address: u32) -> u32
    ensures { result ≡ slice_index space.now address }
{
    match space.get(address as usize) {
        Some(word) => *word,
        None => 0,
    }
}

/// Puts a word at an address. It does nothing outside the space.
#[inline(always)]
fn store(space: &mut Vec<u32>, address: u32, word: u32)
    ensures { space.new.items ≡ slice_set space.old.items address word }
{
    let address = address as usize;
    if address < space.len() {
        space[address] = word;
    }
}

/// Stores an operation's word in the space that it is for, if it stores.
#[inline(always)]
pub fn store_one(memory: &mut Vec<u32>, frame: &mut Vec<u32>, start: &Start)
    ensures data { memory.new.items ≡ store_data memory.old.items start.now }
    ensures frame { frame.new.items ≡ store_frame frame.old.items start.now }
{
    match start.does.op {
        Op::Stw => store(memory, start.operand.unwrap_or(0), start.word),
        Op::Stf => store(frame, start.operand.unwrap_or(0), start.word),
        _ => {}
    }
}

/// Stores the words of all operations that store.
pub fn store_all(memory: &mut Vec<u32>, frame: &mut Vec<u32>, starts: &[Start])
    ensures data { memory.new.items ≡ fold store_data memory.old.items starts.now }
    ensures frame { frame.new.items ≡ fold store_frame frame.old.items starts.now }
{
    for start in starts {
        store_one(memory, frame, start);
    }
}

/// The word that the operations output, if any.
pub fn put_out(starts: &[Start]) -> Option<u32>
    ensures { result ≡ option_map (λ t. t.word) (find puts starts.now) }
{
    for start in starts {
        if let Op::Out = start.does.op {
            return Some(start.word);
        }
    }
    None
}
