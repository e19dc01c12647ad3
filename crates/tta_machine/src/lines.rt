//! The lines of a machine's text.

ghost use Rattle.std.specs.Prelude.{◌≡◌, false, map, codes};
ghost use Rattle.tta_parse.specs.Lines.{plain};
ghost use Rattle.tta_parse.specs.Words.{is_keyword};
ghost use Rattle.tta_parse.specs.Taken.{Takes};
ghost use Rattle.tta_ops.specs.Set.{stated};
ghost use Rattle.tta_machine.specs.Kept.{IsDraft};
ghost use Rattle.tta_machine.specs.Text as text;

use crate::draft::Draft;
use crate::refusal::{LineError, Refusal};
use std::alloc::Global;
use tta_ops::UnitSet;
use tta_parse::Word;

impl Draft {
    /// The first word gives the kind of a line.
    fn declare(
        &mut self,
        alloc: Global,
        units: &UnitSet,
        line: u32,
        key: &Word,
        words: &[Word],
    ) -> Result<(), LineError>
        requires { IsDraft self.old }
        ensures { let U = stated unit_meaning units.now in Takes self.new result
            (text.declare U line self.old (plain key.now) (map plain words.now)) }
    {
        if key.is_keyword(b"bus") {
            self.take_bus(alloc, words)
        } else if key.is_keyword(b"socket") {
            self.take_socket(alloc, words)
        } else if key.is_keyword(b"file") {
            self.take_file(alloc, words)
        } else if key.is_keyword(b"imm") {
            self.take_imm(alloc, words)
        } else if key.is_keyword(b"unit") {
            self.take_unit(alloc, words)
        } else {
            self.declare_use(alloc, units, line, key, words)
        }
    }

    /// What such a part can do, where it is used, or what the whole machine has.
    fn declare_use(
        &mut self,
        alloc: Global,
        units: &UnitSet,
        line: u32,
        key: &Word,
        words: &[Word],
    ) -> Result<(), LineError>
        requires draft { IsDraft self.old }
        requires bus { is_keyword (codes "bus") (plain key.now) ≡ false }
        requires socket { is_keyword (codes "socket") (plain key.now) ≡ false }
        requires file { is_keyword (codes "file") (plain key.now) ≡ false }
        requires imm { is_keyword (codes "imm") (plain key.now) ≡ false }
        requires unit { is_keyword (codes "unit") (plain key.now) ≡ false }
        ensures { let U = stated unit_meaning units.now in Takes self.new result
            (text.declare U line self.old (plain key.now) (map plain words.now)) }
    {
        if key.is_keyword(b"op") {
            self.take_op(units, words)
        } else if key.is_keyword(b"guard") {
            self.take_guard(words)
        } else if key.is_keyword(b"template") {
            self.take_template(alloc, line, words)
        } else if key.is_keyword(b"control") {
            self.take_control(words)
        } else if key.is_keyword(b"space") {
            self.take_space(words)
        } else {
            Err(LineError::Refused(Refusal::Syntax))
        }
    }

    /// What a line declares. A blank line declares nothing. After an error the draft may be in any
    /// state.
    #[tactic(auto, unfolding(crate::specs::Text::take_line))]
    pub fn take_line(
        &mut self,
        alloc: Global,
        units: &UnitSet,
        line: u32,
        words: &[Word],
    ) -> Result<(), LineError>
        requires { IsDraft self.old }
        ensures { let U = stated unit_meaning units.now in Takes self.new result
            (text.take_line U line self.old (map plain words.now)) }
    {
        match words {
            [] => Ok(()),
            [key, rest @ ..] => self.declare(alloc, units, line, key, rest),
        }
    }
}
