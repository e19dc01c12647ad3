//! Blocks of register code.

use tta_list::Items;
use tta_ops::OpId;
use tta_program::Rel;

/// Where a word is kept: a home register, or a slot of the frame space.
#[derive(Clone, Copy)]
pub enum Place {
    Reg(u32),
    Frame(u32),
}

/// An operand: what a place holds, or a constant word.
#[derive(Clone, Copy)]
pub enum RSrc {
    At(Place),
    Word(u32),
}

/// A step of register code; the steps of programs, with places for variables.
#[derive(Clone, Copy)]
pub enum RStep {
    Copy {
        d: Place,
        s: RSrc,
    },
    Apply {
        d: Place,
        op: OpId,
        a: RSrc,
        b: RSrc,
    },
    Load {
        d: Place,
        a: RSrc,
    },
    Take {
        d: Place,
    },
    Store {
        a: RSrc,
        v: RSrc,
    },
    Put {
        v: RSrc,
    },
    When {
        rel: Rel,
        a: RSrc,
        b: RSrc,
        d: Place,
        s: RSrc,
    },
    /// The return address is kept in a slot.
    SaveRa {
        slot: u32,
    },
}

/// How a block ends. Blocks are counted from 0.
#[derive(Clone, Copy)]
pub enum Exit {
    /// The next block comes.
    Next,
    Goto { to: u32 },
    /// Where the condition does not hold, the next block comes.
    If { rel: Rel, a: RSrc, b: RSrc, to: u32 },
    /// A call: the return address is the next block.
    Invoke { to: u32 },
    /// The block whose number was kept in a slot comes.
    Back { slot: u32 },
    Halt,
}

/// A block: its steps, how it ends, and the home registers that keep their words after it, rising.
#[derive(Drop)]
pub struct RBlock {
    pub steps: Items<RStep>,
    pub exit: Exit,
    pub live_out: Items<u32>,
}

/// Register code. A run begins at its first block.
#[derive(Drop)]
pub struct Rir {
    pub blocks: Items<RBlock>,
}
