//! What the blocks of register code stand for.

ghost use Rattle.std.specs.Prelude.{◌≡◌};
ghost use Rattle.tta_lower.specs.Lower.{owner_of};

use tta_flow::Block;

/// What a block of register code stands for: the entry of a procedure, some steps, or the return
/// from a call that ends some steps, with its destination and its callee.
#[derive(Clone, Copy)]
pub enum Part {
    Entry(u32),
    Steps(Block),
    Returned(Block, u32, u32),
}

/// The procedure of a part.
pub fn owner_of(part: Part) -> u32
    ensures { result ≡ owner_of part }
{
    match part {
        Part::Entry(owner) => owner,
        Part::Steps(b) | Part::Returned(b, _, _) => b.owner,
    }
}
