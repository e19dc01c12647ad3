//! What was read of an assembly text, piece by piece.

ghost use Rattle.std.specs.Prelude.{◌≡◌, ◌+◌, ◌<◌, ◌≤◌, ◌^◌, [], length, option_map, OnOk};
ghost use Rattle.tta_ops.specs.Set.{stated};
ghost use Rattle.tta_asm.specs.Assembly.{Draft as SeenDraft, nothing};
ghost use Rattle.tta_asm.specs.Assembly.{take_label, take_slot, take_piece, is_over};
ghost use Rattle.tta_asm.specs.Drafts.{draft_seen, end_instruction, Takes};
ghost use Rattle.tta_asm.specs.LabelsSeen.{label_seen};
ghost use Rattle.tta_asm.specs.Seen.{form_seen, long_seen, piece_seen};

use crate::forms::{LongForm, PieceForm, SlotForm};
use crate::instruction::{Position, instruction_of};
use crate::labels::{Label, LabelWord, label_of};
use crate::pieces::{Close, Closed, PlacedWord};
use crate::refusal::{AsmError, AsmRefusal};
use crate::syntax::piece_form;
use crate::target::Target;
use std::alloc::Global;
use tta_code::Instruction;
use tta_list::Items;
use tta_parse::Names;

/// What was read of a text: the slots of an instruction that has not ended, and the instructions.
#[derive(Drop)]
pub struct Draft<'t> {
    pub slots: Vec<SlotForm<'t>>,
    pub words: Items<Instruction>,
}

/// A label, which is refused as `Label` where another of its name stands before it.
fn check_label(labels: &Names<Label>, word: &LabelWord) -> Result<(), AsmError>
    ensures { (d : SeenDraft) → Takes d result (take_label labels.now d (label_seen word.now)) }
{
    match labels.get(word.name) {
        Some(label) if label.start == word.start => Ok(()),
        _ => Err(AsmRefusal::Label.at(word.line)),
    }
}

impl<'t> Draft<'t> {
    /// The draft before the first piece. It takes no memory.
    pub fn new(alloc: Global) -> Self
        ensures { draft_seen result ≡ nothing }
    {
        Draft {
            slots: Vec::new(alloc),
            words: Items::new(alloc),
        }
    }

    /// Ends the instruction of the slots so far, on this line. It is refused as `instruction_of`
    /// says. After an `Err` the draft is of no more use.
    fn end_instruction(
        &mut self,
        alloc: Global,
        target: &Target,
        labels: &Names<Label>,
        line: u32,
        long: Option<LongForm>,
    ) -> Result<(), AsmError>
        requires { length (draft_seen self.old).words < 2 ^ 32 }
        ensures takes { Takes (draft_seen self.new) result
            (end_instruction (stated unit_meaning target.now.units.now) target.now.machine.now
            labels.now (draft_seen self.old) line (option_map long_seen long.entry)) }
        ensures grows { OnOk result
            (length (draft_seen self.new).words ≤ length (draft_seen self.old).words + 1) }
    {
        let before = self.words.len() as u32;
        let at = Position { line, before };
        match instruction_of(alloc, target, labels, at, self.slots.as_slice(), long) {
            Ok(i) => {
                self.words.push(i)?;
                self.slots.clear();
                Ok(())
            }
            Err(e) => Err(e),
        }
    }

    /// Takes a slot, with which its instruction may end: then it is refused as `instruction_of`
    /// says. After an `Err` the draft is of no more use.
    fn take_slot(
        &mut self,
        alloc: Global,
        target: &Target,
        labels: &Names<Label>,
        closed: Closed,
        form: &PieceForm<'t>,
    ) -> Result<(), AsmError>
        requires { length (draft_seen self.old).words < 2 ^ 32 }
        ensures takes { Takes (draft_seen self.new) result
            (take_slot (stated unit_meaning target.now.units.now) target.now.machine.now
            labels.now (draft_seen self.old) (piece_seen [] closed.close closed.line)
            (form_seen form.now)) }
        ensures grows { OnOk result
            (length (draft_seen self.new).words ≤ length (draft_seen self.old).words + 1) }
    {
        self.slots.push(form.slot)?;
        match closed.close {
            Close::Semicolon => {
                self.end_instruction(alloc, target, labels, closed.line, form.long)
            }
            _ => Ok(()),
        }
    }

    /// Takes a piece: a label where no instruction has begun, and else a slot. It is refused with
    /// its first refusal: a label as `Label`, words that do not fit as `Syntax`, and the
    /// instruction that ends with it as `instruction_of` says. After an `Err` the draft is of no
    /// more use.
    #[tactic(auto, unfolding(crate::specs::Assembly::take_piece))]
    pub fn take_piece(
        &mut self,
        alloc: Global,
        target: &Target,
        labels: &Names<Label>,
        words: &[PlacedWord<'t>],
        closed: Closed,
    ) -> Result<(), AsmError>
        requires { length (draft_seen self.old).words < 2 ^ 32 }
        ensures takes { Takes (draft_seen self.new) result
            (take_piece (stated unit_meaning target.now.units.now) target.now.machine.now
            labels.now (draft_seen self.old) (piece_seen words.now closed.close closed.line)) }
        ensures grows { OnOk result
            (length (draft_seen self.new).words ≤ length (draft_seen self.old).words + 1) }
    {
        if let Some(word) = label_of(self.slots.is_empty(), words, closed) {
            return check_label(labels, &word);
        }
        match piece_form(words, closed.close, closed.line) {
            Ok(form) => self.take_slot(alloc, target, labels, closed, &form),
            Err(line) => Err(AsmRefusal::Syntax.at(line)),
        }
    }

    /// Whether a piece is the end of a text, and nothing has begun.
    pub fn is_over(&self, words: &[PlacedWord], closed: Closed) -> bool
        ensures { result
            ≡ is_over (draft_seen self.now) (piece_seen words.now closed.close closed.line) }
    {
        matches!(closed.close, Close::End) && words.is_empty() && self.slots.is_empty()
    }
}
