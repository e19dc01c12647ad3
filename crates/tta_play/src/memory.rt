//! The words of the spaces that cycles change.

ghost use Rattle.std.specs.Prelude.{◌≡◌, ◌==◌, ◌++◌, false, codes, decimal, slice_get, take, OnOk};
ghost use Rattle.std.specs.Option.{option_map_or};
ghost use Rattle.tta_pages.specs.Room.{within};
ghost use Rattle.tta_play.specs.States.{spaces_text, store_text, stores_text};

use crate::words::push_number;
use std::alloc::AllocError;
use tta_pages::keep_within;
use tta_sim::Sim;

/// How many words of each space are told of what changed before a page begins.
const MOST_WORDS: usize = 4096;

/// How many bytes that has at most. So many words do not have more.
const MOST_WORD_BYTES: usize = 262_144;

/// The data words and the frame words of a state.
#[derive(Drop)]
pub struct Spaces {
    pub memory: Vec<u32>,
    pub frame: Vec<u32>,
}

/// Keeps words in the place of those before.
fn keep(words: &mut Vec<u32>, now: &[u32]) -> Result<(), AllocError>
    ensures { OnOk result (words.new.items ≡ now.now) }
{
    words.clear();
    words.extend_from_slice(now)
}

/// Keeps the words of the spaces of a run.
pub fn remember(spaces: &mut Spaces, sim: &Sim) -> Result<(), AllocError>
    ensures memory { OnOk result (spaces.new.memory.items ≡ sim.now.memory) }
    ensures frame { OnOk result (spaces.new.frame.items ≡ sim.now.frame) }
{
    keep(&mut spaces.memory, sim.memory())?;
    keep(&mut spaces.frame, sim.frame())
}

/// Whether a word was this one before.
fn was(before: Option<u32>, word: u32) -> bool
    ensures { result ≡ option_map_or (λ b. b == word) before false }
{
    match before {
        None => false,
        Some(before) => before == word,
    }
}

/// Puts a word of a space after its address.
fn push_addressed(
    out: &mut Vec<u8>,
    space: &[u8],
    address: usize,
    word: u32,
) -> Result<(), AllocError>
    ensures { OnOk result (out.new.items ≡ out.old.items ++ (space.now ++ (decimal address
        ++ (codes " " ++ (decimal word ++ codes "\n"))))) }
{
    out.extend_from_slice(space)?;
    push_number(out, address as u64)?;
    out.extend_from_slice(b" ")?;
    push_number(out, u64::from(word))?;
    out.extend_from_slice(b"\n")
}

/// Puts a word of a space, where another was before.
#[tactic(auto, unfolding(crate::specs::States::store_text))]
fn push_store(
    out: &mut Vec<u8>,
    space: &[u8],
    before: Option<u32>,
    address: usize,
    word: u32,
) -> Result<(), AllocError>
    ensures { OnOk result
        (out.new.items ≡ out.old.items ++ store_text space.now before address word) }
{
    if was(before, word) {
        return Ok(());
    }
    push_addressed(out, space, address, word)
}

/// The word of an address, if there is one.
fn word_at(words: &[u32], address: usize) -> Option<u32>
    ensures { result ≡ slice_get words.now address }
{
    words.get(address).copied()
}

/// Puts the words of a space that are others than before.
fn push_stores(
    out: &mut Vec<u8>,
    space: &[u8],
    before: &[u32],
    now: &[u32],
) -> Result<(), AllocError>
    ensures { OnOk result
        (out.new.items ≡ out.old.items ++ stores_text space.now before.now now.now) }
{
    for (address, word) in now.iter().enumerate() {
        push_store(out, space, word_at(before, address), address, *word)?;
    }
    Ok(())
}

/// Puts the data words and the frame words that are others than before.
#[tactic(auto, unfolding(crate::specs::States::spaces_text))]
fn push_spaces(
    out: &mut Vec<u8>,
    memory: &[u32],
    frame: &[u32],
    memory_now: &[u32],
    frame_now: &[u32],
) -> Result<(), AllocError>
    ensures { OnOk result (out.new.items ≡ out.old.items
        ++ spaces_text memory.now frame.now memory_now.now frame_now.now) }
{
    push_stores(out, b"store ", memory, memory_now)?;
    push_stores(out, b"slot ", frame, frame_now)
}

/// Puts the words of the spaces of a run that are others than those that were kept, and keeps them.
pub fn push_changed(out: &mut Vec<u8>, spaces: &mut Spaces, sim: &Sim) -> Result<(), AllocError>
    ensures stores { OnOk result (out.new.items ≡ out.old.items ++ spaces_text
        spaces.old.memory.items spaces.old.frame.items sim.now.memory sim.now.frame) }
    ensures memory { OnOk result (spaces.new.memory.items ≡ sim.now.memory) }
    ensures frame { OnOk result (spaces.new.frame.items ≡ sim.now.frame) }
{
    push_spaces(
        out,
        spaces.memory.as_slice(),
        spaces.frame.as_slice(),
        sim.memory(),
        sim.frame(),
    )?;
    remember(spaces, sim)
}

/// The first of some words, as many as are told of what changed before a page begins.
fn first_of(words: &[u32]) -> &[u32]
    ensures { result.now ≡ take 4096 words.now }
{
    if words.len() > MOST_WORDS {
        &words[..MOST_WORDS]
    } else {
        words
    }
}

/// Puts the first words of the spaces of a run that are others than those that were kept, if there is room
/// for them.
pub fn push_earlier(out: &mut Vec<u8>, spaces: &Spaces, sim: &Sim) -> Result<(), AllocError>
    ensures { OnOk result (out.new.items ≡ out.old.items ++ within 262144 (spaces_text
        (take 4096 spaces.now.memory.items) (take 4096 spaces.now.frame.items)
        (take 4096 sim.now.memory) (take 4096 sim.now.frame))) }
{
    let from = out.len();
    push_spaces(
        out,
        first_of(spaces.memory.as_slice()),
        first_of(spaces.frame.as_slice()),
        first_of(sim.memory()),
        first_of(sim.frame()),
    )?;
    keep_within(out, from, MOST_WORD_BYTES);
    Ok(())
}
