//! Blocks in a row.

ghost use Rattle.std.specs.Prelude.{◌≡◌, ◌+◌, ◌<◌, ◌≤◌, ◌++◌, true, length, replicate};
ghost use Rattle.std.specs.Prelude.{None, IfOk, OnOk, IfErr};
ghost use Rattle.std.specs.List.{list_all};
ghost use Rattle.tta_code.specs.Legal.{IsLegalCode};
ghost use Rattle.tta_link.specs.Linked.{starts_from, block_words, IsLinked};
ghost use Rattle.tta_link.specs.declared.row.LinkError.TheVariants.{NoMemory};
ghost use Rattle.tta_link.specs.Blocks.{has_place, most_blocks, total_length, AreBlocks, HasCause};
ghost use Rattle.tta_link.specs.Put.{is_word_in};

use crate::items::put;
use std::alloc::{AllocError, AllocFailed, Global};
use thiserror::Error;
use tta_arch::Machine;
use tta_code::{Code, Instruction};
use tta_list::Items;
use tta_moves::Placed;

/// Why blocks were not linked.
#[derive(Clone, Copy, Debug, PartialEq, Eq, Error)]
pub enum LinkError {
    /// The blocks take so many words of code, and the machine has only so many addresses.
    #[error("the code has {words} instructions, and the machine has {have} addresses")]
    CodeFull { words: u64, have: u32 },
    /// Out of memory.
    #[error("no memory")]
    NoMemory,
}

impl From<AllocError> for LinkError {
    ghost from_gives = { λ _ e. e ≡ NoMemory };

    fn from(_: AllocError) -> LinkError {
        LinkError::NoMemory
    }
}

impl<T: Drop> From<AllocFailed<T>> for LinkError {
    ghost from_gives = { λ _ e. e ≡ NoMemory };

    fn from(_: AllocFailed<T>) -> LinkError {
        LinkError::NoMemory
    }
}

/// How many cycles blocks take, one after another.
fn total_length(blocks: &[Placed]) -> u64
    requires { length blocks.now ≤ most_blocks }
    ensures { result ≡ total_length blocks.now }
{
    let mut total = 0;
    for p in blocks {
        total += u64::from(p.length);
    }
    total
}

/// Where each block begins, and where the last ends.
fn starts(alloc: Global, blocks: &[Placed]) -> Result<Vec<u32>, AllocError>
    requires { total_length blocks.now ≤ 65536 }
    ensures { IfOk result (λ v. v.items ≡ starts_from 0 blocks.now) }
{
    let mut starts = Vec::new(alloc);
    let mut at = 0;
    for p in blocks {
        starts.push(at)?;
        at += p.length;
    }
    starts.push(at)?;
    Ok(starts)
}

/// Adds instructions with nothing on their slots after the words.
#[tactic(auto, using(crate::proofs::Rows::replicate_push, tta_list::proofs::Lists::list_all_push))]
fn push_empty(
    alloc: Global,
    words: &mut Vec<Instruction>,
    buses: usize,
    count: u32,
) -> Result<(), AllocError>
    ensures value { OnOk result (words.new.items ≡ words.old.items
        ++ replicate count (record { moves = replicate buses None; long = None })) }
    ensures words { list_all is_word_in words.old.items ≡ true
        → OnOk result (list_all is_word_in words.new.items ≡ true) }
{
    for _cycle in 0..count {
        let moves = Items::of(vec![in alloc; None; buses]?);
        words.push(Instruction { moves, long: None })?;
    }
    Ok(())
}

/// Adds the words of a block after the others. Its items are taken from the last to the first.
fn push_block(
    alloc: Global,
    words: &mut Vec<Instruction>,
    m: &Machine,
    starts: &[u32],
    p: &Placed,
) -> Result<(), AllocError>
    requires { list_all (has_place p.now.length (length m.now.buses) (length starts.now))
        p.now.items ≡ true }
    ensures value { OnOk result
        (words.new.items ≡ words.old.items ++ block_words m.now starts.now p.now) }
    ensures words { list_all is_word_in words.old.items ≡ true
        → OnOk result (list_all is_word_in words.new.items ≡ true) }
{
    let items = p.items.as_slice();
    let start = words.len();
    push_empty(alloc, words, m.buses.len(), p.length)?;
    for k in (0..items.len()).rev() {
        let x = items[k];
        put(&mut words[start + x.cycle as usize], starts, x);
    }
    Ok(())
}

/// The code of placed blocks, one after another, where an address is the word at which its block
/// begins. `CodeFull` comes exactly where the blocks take more cycles than the machine has
/// addresses, before any instruction is made, with these two numbers; else only out of memory is an
/// error.
pub fn link(alloc: Global, blocks: &[Placed], m: &Machine) -> Result<Code, LinkError>
    requires { AreBlocks m.now blocks.now }
    ensures linked { IfOk result (λ code. IsLinked m.now code blocks.now) }
    ensures legal { IfOk result (λ code. IsLegalCode m.now code) }
    ensures cause { IfErr result (HasCause m.now blocks.now) }
{
    let words = total_length(blocks);
    let have = m.addresses();
    if words > u64::from(have) {
        return Err(LinkError::CodeFull { words, have });
    }
    let starts = starts(alloc, blocks)?;
    let mut code = Vec::with_capacity(alloc, words as usize)?;
    for p in blocks {
        push_block(alloc, &mut code, m, starts.as_slice(), p)?;
    }
    Ok(Code {
        words: Items::of(code),
    })
}
