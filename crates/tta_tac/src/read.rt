//! The program of a text.

ghost use Rattle.std.specs.Prelude.{◌≡◌, ◌≤◌, ◌^◌, length, IfOk, IfErr, OnOk};
ghost use Rattle.tta_parse.specs.Lines.{lines_of};
ghost use Rattle.tta_ops.specs.Set.{stated};
ghost use Rattle.tta_program.specs.Over.{StandsOver};
ghost use Rattle.tta_tac.specs.Draft.{draft_seen, nothing};
ghost use Rattle.tta_tac.specs.Grammar.{IsProgramText};
ghost use Rattle.tta_tac.specs.Text.{ProgramText, HasCause};
ghost use Rattle.tta_tac.specs.Whole.{TakesAll};

use crate::draft::Draft;
use crate::finish::finish;
use crate::refusal::{LineError, Refusal, TacError};
use std::alloc::Global;
use tta_ops::UnitSet;
use tta_parse::Lines;
use tta_program::Program;

/// Takes all lines of a text into an empty draft. A text that ends inside a procedure is refused at
/// the line after it.
#[tactic(auto, using(crate::proofs::Whole::line_refused))]
fn read_lines<'t>(
    alloc: Global,
    text: &'t [u8],
    units: &UnitSet,
    draft: &mut Draft<'t>,
) -> Result<(), TacError>
    requires short { length text.now ≤ 2 ^ 24 }
    requires empty { draft_seen draft.old ≡ nothing }
    ensures taken { let U = stated unit_meaning units.now in
        OnOk result (TakesAll U text.now (draft_seen draft.new)) }
    ensures refused { IfErr result (HasCause (stated unit_meaning units.now) text.now) }
{
    let mut lines = Lines::new(text);
    let mut words = Vec::new(alloc);
    let mut line: u32 = 0;
    while lines.next_line(&mut words)? {
        line += 1;
        match draft.take_line(alloc, units, line, words.as_slice()) {
            Ok(()) => {}
            Err(LineError::Refused(refusal)) => {
                return Err(TacError::Refused {
                    line,
                    code: refusal.code(),
                });
            }
            Err(LineError::NoMemory) => return Err(TacError::NoMemory),
        }
    }
    if draft.begun.is_some() {
        return Err(TacError::Refused {
            line: line + 1,
            code: Refusal::Syntax.code(),
        });
    }
    Ok(())
}

/// The program of a text, whose lines are taken into an empty draft.
fn program_of<'t>(
    alloc: Global,
    text: &'t [u8],
    units: &UnitSet,
    draft: &mut Draft<'t>,
) -> Result<Program, TacError>
    requires short { length text.now ≤ 2 ^ 24 }
    requires empty { draft_seen draft.old ≡ nothing }
    ensures read { IfOk result (ProgramText (stated unit_meaning units.now) text.now) }
    ensures refused { IfErr result (HasCause (stated unit_meaning units.now) text.now) }
{
    read_lines(alloc, text, units, draft)?;
    finish(alloc, draft)
}

/// The program of a text. It stands over these operation units. The text has at most 2^24 bytes.
///
/// `Refused` reports the first refusal of the text with its line, counted from 1 (0 stands for the
/// whole text).
pub fn read_program(alloc: Global, text: &[u8], units: &UnitSet) -> Result<Program, TacError>
    requires { length text.now ≤ 2 ^ 24 }
    ensures read { IfOk result (ProgramText (stated unit_meaning units.now) text.now) }
    ensures grammar { let U = stated unit_meaning units.now in
        IfOk result (IsProgramText U (lines_of text.now)) }
    ensures over { IfOk result (StandsOver (stated unit_meaning units.now)) }
    ensures refused { IfErr result (HasCause (stated unit_meaning units.now) text.now) }
{
    let mut draft = Draft::new(alloc);
    program_of(alloc, text, units, &mut draft)
}
