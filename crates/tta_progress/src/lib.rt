//! How far machines as circuits get that are joined by queues as circuits.
#![tactic(auto)]

mod laws;

pub use laws::{board_finishes, board_moves, board_rests};
