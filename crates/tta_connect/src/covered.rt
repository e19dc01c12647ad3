//! A machine with what the compiler needs of it.

ghost use Rattle.tta_connect.specs.Coverage.{IsChoice};

use crate::choice::Choice;
use crate::target_machine::TargetMachine;

/// A machine that keeps all rules of coverage, with its net and what is chosen on it.
#[derive(Clone, Copy)]
pub struct BuildTarget<'a> {
    pub joined: TargetMachine<'a>,
    pub choice: &'a Choice,
    ghost choice_of: { IsChoice joined.machine.now choice.now },
}
