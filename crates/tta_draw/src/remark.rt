//! What is remarked of the rows of code.

use tta_list::Name;

/// A text that stands beside a row, by the row's address.
#[derive(Drop)]
pub struct Remark {
    pub row: u32,
    pub text: Name,
}
