//! Items, the lists of a program's blocks, and items in their cycles.

use tta_arch::{Dest, GuardRef, Source};
use tta_list::Items;

/// Where an item takes its word from.
#[derive(Clone, Copy, Debug, PartialEq, Eq)]
pub enum ItemSource {
    /// What a move can read, or a word.
    Port(Source),
    /// The address of a block, by the block's number.
    Address(u32),
}

/// The word of a long immediate.
#[derive(Clone, Copy, Debug, PartialEq, Eq)]
pub enum LongValue {
    Word(u32),
    /// The address of a block, by the block's number.
    Address(u32),
}

/// One step of a list.
#[derive(Clone, Copy, Debug, PartialEq, Eq)]
pub enum Item {
    /// A move, where its guard lets it.
    Move {
        guard: Option<GuardRef>,
        src: ItemSource,
        dst: Dest,
    },
    /// A long immediate into a register of an immediate unit.
    Long {
        imm: u8,
        reg: u8,
        value: LongValue,
    },
}

/// The items of a block, and the registers that are read after it, as file and index.
#[derive(Drop)]
pub struct BlockList {
    pub items: Items<Item>,
    pub live_out: Items<(u8, u8)>,
}

/// What carries an item: a bus carries a move, and a template a long immediate.
#[derive(Clone, Copy, Debug, PartialEq, Eq)]
pub enum Slot {
    Bus(u8),
    Template(u8),
}

/// An item in its cycle, counted from the first of its block, and on its slot.
#[derive(Clone, Copy, Debug, PartialEq, Eq)]
pub struct PlacedItem {
    pub item: Item,
    pub cycle: u32,
    pub slot: Slot,
}

/// The items of a block in their cycles, in the order of the list, and how many cycles it takes.
#[derive(Drop)]
pub struct Placed {
    pub items: Items<PlacedItem>,
    pub length: u32,
}
