//! The fixed text of pages of HTML: what stands before their data, between them and behind them.
#![tactic(auto)]

mod common_pieces;
mod joins_pieces;
mod pages;
mod room;
mod run_code_pieces;
mod run_picture_pieces;
mod run_pieces;
mod run_show_pieces;
mod run_states_pieces;
mod stages_pieces;

pub use pages::{page_of_stages, push_run_head, push_run_tail};
pub use room::{fit, keep_within};
pub use run_pieces::push_run_middle;
