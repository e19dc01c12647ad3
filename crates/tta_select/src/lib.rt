//! Selection: register code becomes lists of moves, one list a block.
#![tactic(auto)]

mod block_lists;
mod calling;
mod direct_lists;
mod dispatch;
mod laws;
mod leaving;
mod merging;
mod operands;
mod operating;
mod putting;
mod stepping;
mod target;

pub use block_lists::select;
pub use calling::test_op;
pub use direct_lists::select_direct;
pub use laws::{selects, selects_direct};
