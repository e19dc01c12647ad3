//! The machine of a text.

ghost use Rattle.std.specs.Prelude.{◌≡◌, ◌≤◌, ◌^◌, length, Ok, Err, IfOk, IfErr, OnOk};
ghost use Rattle.tta_parse.specs.Lines.{lines_of};
ghost use Rattle.tta_ops.specs.Set.{stated};
ghost use Rattle.tta_arch.specs.Over.{StandsOver};
ghost use Rattle.tta_machine.specs.Draft.{nothing};
ghost use Rattle.tta_machine.specs.Grammar.{IsMachineText};
ghost use Rattle.tta_machine.specs.Text.{machine_of_text, HasCause};
ghost use Rattle.tta_machine.specs.Whole.{DraftEnds, TakesAll};

use crate::complete::complete;
use crate::draft::Draft;
use crate::refusal::{LineError, MachineError};
use std::alloc::Global;
use tta_arch::Machine;
use tta_ops::UnitSet;
use tta_parse::Lines;

/// What all lines of a text declare.
fn read_draft(alloc: Global, text: &[u8], units: &UnitSet) -> Result<Draft, MachineError>
    requires { length text.now ≤ 2 ^ 24 }
    ensures { DraftEnds (stated unit_meaning units.now) (lines_of text.now) result }
{
    let mut draft = Draft::new(alloc);
    read_lines(alloc, text, units, &mut draft)?;
    Ok(draft)
}

/// Takes all lines of a text into an empty draft.
#[tactic(auto, using(crate::proofs::Whole::lines_taken, crate::proofs::Whole::lines_refused))]
fn read_lines(
    alloc: Global,
    text: &[u8],
    units: &UnitSet,
    draft: &mut Draft,
) -> Result<(), MachineError>
    requires short { length text.now ≤ 2 ^ 24 }
    requires empty { draft.old ≡ nothing }
    ensures taken { OnOk result
        (TakesAll (stated unit_meaning units.now) (lines_of text.now) draft.new) }
    ensures refused { IfErr result (λ e. DraftEnds (stated unit_meaning units.now)
        (lines_of text.now) (Err e)) }
{
    let mut lines = Lines::new(text);
    let mut words = Vec::new(alloc);
    let mut line: u32 = 0;
    while lines.next_line(&mut words)? {
        line += 1;
        match draft.take_line(alloc, units, line, words.as_slice()) {
            Ok(()) => {}
            Err(LineError::Refused(refusal)) => {
                return Err(MachineError::Refused {
                    line,
                    code: refusal.code(),
                });
            }
            Err(LineError::NoMemory) => return Err(MachineError::NoMemory),
        }
    }
    Ok(())
}

/// The machine that a text describes. It stands over these operation units. The text has at most
/// 2^24 bytes.
///
/// `Refused` gives the first refusal of the text with its line, counted from 1 (0 stands for the
/// whole text).
pub fn read_machine(alloc: Global, text: &[u8], units: &UnitSet) -> Result<Machine, MachineError>
    requires { length text.now ≤ 2 ^ 24 }
    ensures read { let U = stated unit_meaning units.now in
        IfOk result (λ m. machine_of_text U text.now ≡ Ok m) }
    ensures grammar { let U = stated unit_meaning units.now in
        IfOk result (λ m. IsMachineText U (lines_of text.now) m) }
    ensures over { IfOk result (StandsOver (stated unit_meaning units.now)) }
    ensures refused { IfErr result (HasCause (stated unit_meaning units.now) text.now) }
{
    let draft = read_draft(alloc, text, units)?;
    complete(alloc, draft)
}
