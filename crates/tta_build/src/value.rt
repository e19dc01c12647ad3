//! What the compiler makes of a program, as one value.

use crate::best_candidate::Planned;
use crate::register::Lowered;
use tta_code::Code;
use tta_connect::Choice;

/// What the compiler makes of a program, but for what is chosen on the machine.
#[derive(Drop)]
pub struct Assembled {
    pub lowered: Lowered,
    pub planned: Planned,
    pub code: Code,
}

/// What the compiler makes of a program: all of which its code comes, stage by stage.
#[derive(Drop)]
pub struct Compiled {
    /// What is chosen on the machine; nothing for a direct pair.
    pub choice: Option<Choice>,
    /// From the program to its register code.
    pub lowered: Lowered,
    /// From the selected lists to their placements.
    pub planned: Planned,
    /// The code of the placements, one after another.
    pub code: Code,
}
