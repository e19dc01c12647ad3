//! Divisions in stages as circuits: one can begin at each clock, and it is done as many clocks later as
//! there are stages with registers behind them.
#![tactic(auto)]

mod kind;
mod laws;

pub use kind::Kind;
pub use laws::{divider_is_said, divider_serves, divides_at_once};
