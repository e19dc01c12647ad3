//! Operation units: what an operation is called, how many words it takes and what it gives; and
//! sets of units, where operations are found by their names, by the kit's `indexmap`.
#![tactic(auto)]

mod arithmetic;
mod bits;
mod comparison;
mod error;
mod operations;
mod place;
mod reserved;
mod set;
mod table;
mod unit;
mod value;

pub use arithmetic::{Arith, Divide};
pub use bits::{Logic, Shift};
pub use comparison::Compare;
pub use error::OpsError;
pub use reserved::is_reserved;
pub use set::UnitSet;
pub use unit::OpUnit;

/// An operation of a set of units, counted from 0 unit by unit and then by index.
#[derive(Clone, Copy, Debug, PartialEq, Eq)]
pub struct OpId(pub u32);
