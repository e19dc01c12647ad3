//! Lists of moves before they have cycles: what a list means by itself, which lists a machine can
//! carry out, the bounds and the forms that they are judged by, and what it is to place them.
#![tactic(auto)]

mod items;
mod laws;
mod lists;
pub mod numbers;
pub mod parts;

pub use items::{BlockList, Item, ItemSource, LongValue, Placed, PlacedItem, Slot};
pub use laws::{first_fit_respects, holds_each_address};
pub use lists::{carried, is_joined, is_list};
