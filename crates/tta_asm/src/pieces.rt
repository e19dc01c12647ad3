//! The pieces of an assembly text.

ghost use Rattle.std.specs.Prelude.{◌≡◌, ◌+◌, ◌^◌, ◌<◌, ◌≤◌, [], length, drop};
ghost use Rattle.std.specs.Prelude.{Some, None, IfOk, OnOk, vec_capacity};
ghost use Rattle.tta_parse.specs.Lines.{plain};
ghost use Rattle.tta_asm.specs.Calls.{Cuts, IsShorter};
ghost use Rattle.tta_asm.specs.Pieces as spec;
ghost use Rattle.tta_asm.specs.Seen.{piece_seen};

use std::alloc::AllocError;
use std::marker::Model;
use tta_parse::Word;
use tta_text::{Kind, Scanner};

/// A word with its place: its line, counted from 1, and its first byte, counted from 0.
#[derive(Clone, Copy)]
pub struct PlacedWord<'t> {
    pub line: u32,
    pub start: usize,
    pub word: Word<'t>,
}

/// What closes a piece.
#[derive(Clone, Copy)]
pub enum Close {
    /// `,`, after a slot that is not the last.
    Comma,
    /// `:`, after a label.
    Colon,
    /// `;`, after an instruction.
    Semicolon,
    /// The end of the text.
    End,
}

/// What closes a piece, and the line that it stands on.
#[derive(Clone, Copy)]
pub struct Closed {
    pub close: Close,
    pub line: u32,
}

/// A reader of the pieces of a text, one after another. A contract sees it as the pieces that are
/// left, of which the last is what the end of the text closes.
#[derive(Drop)]
pub struct Pieces<'t> {
    text: &'t [u8],
    scanner: Scanner<'t>,
    /// The line after the last that has ended.
    line: u32,
}

impl<'t> Model for Pieces<'t> {
    ghost use Rattle.std.specs.Prelude.{List, []};
    ghost use Rattle.tta_asm.specs.Calls.{IsAtLine};
    ghost use Rattle.tta_asm.specs.Pieces.{Piece, pieces_from};

    ghost Value = { List Piece };

    ghost view = { λ s. pieces_from s.text.now s.line [] s.scanner.tokens };

    ghost invariant = { λ s. IsAtLine s.scanner.text s.text.now s.line };
}

impl<'t> Pieces<'t> {
    /// A reader that stands at the first piece of a text of at most 2^24 bytes.
    #[tactic(auto, unfolding(crate::specs::Pieces::pieces_of))]
    pub fn new(text: &'t [u8]) -> Pieces<'t>
        requires { length text.now ≤ 2 ^ 24 }
        ensures pieces { result ≡ spec.pieces_of text.now }
        ensures few { length result ≤ 2 ^ 24 + 2 }
    {
        Pieces {
            text,
            scanner: Scanner::new(text),
            line: 1,
        }
    }

    /// Passes over so many pieces, of which none is the last. The words that the last of them had
    /// are left. An `Err` means out of memory.
    fn skip(&mut self, count: usize, words: &mut Vec<PlacedWord<'t>>) -> Result<(), AllocError>
        requires { count < length self.old }
        ensures { OnOk result (self.new ≡ drop count self.old) }
    {
        for _ in 0..count {
            self.next_piece(words)?;
        }
        Ok(())
    }

    /// A reader of a text of at most 2^24 bytes that stands after so many pieces, of which none is
    /// the last. An `Err` means out of memory.
    pub fn behind(
        text: &'t [u8],
        count: usize,
        words: &mut Vec<PlacedWord<'t>>,
    ) -> Result<Pieces<'t>, AllocError>
        requires small { length text.now ≤ 2 ^ 24 }
        requires few { count < length (spec.pieces_of text.now) }
        ensures pieces { IfOk result (λ pieces. pieces ≡ drop count (spec.pieces_of text.now)) }
        ensures few { IfOk result (λ pieces. length pieces ≤ 2 ^ 24 + 2) }
    {
        let mut pieces = Pieces::new(text);
        match pieces.skip(count, words) {
            Ok(()) => Ok(pieces),
            Err(e) => Err(e),
        }
    }

    /// Reads the words of the next piece into `words`, in the place of those that it had, and
    /// answers what closes it. The end of the text closes the last piece. An `Err` is want of
    /// memory, and leaves the reader within a piece. All calls together take time that is linear in
    /// the text.
    pub fn next_piece(&mut self, words: &mut Vec<PlacedWord<'t>>) -> Result<Closed, AllocError>
        ensures cut { IfOk result (λ closed.
            Cuts (piece_seen words.new.items closed.close closed.line) self.old self.new) }
        ensures shorter { IfOk result (λ closed. IsShorter closed.close self.old self.new) }
        ensures room { vec_capacity words.old ≤ vec_capacity words.new }
    {
        words.clear();
        let text = self.text;
        while let Some(token) = self.scanner.next_token() {
            if token.kind == Kind::Eol {
                self.line = token.line + 1;
                continue;
            }
            let word = Word {
                kind: token.kind,
                text: &text[token.start..token.end],
            };
            if let Some(close) = closing(&word) {
                return Ok(Closed {
                    close,
                    line: token.line,
                });
            }
            words.push(PlacedWord {
                line: token.line,
                start: token.start,
                word,
            })?;
        }
        Ok(Closed {
            close: Close::End,
            line: self.line,
        })
    }
}

/// What a word closes, if it is one of the three marks that close.
fn closing(word: &Word) -> Option<Close>
    ensures { result ≡ spec.closing (plain word.now) }
{
    if word.is_mark(b",") {
        Some(Close::Comma)
    } else if word.is_mark(b":") {
        Some(Close::Colon)
    } else if word.is_mark(b";") {
        Some(Close::Semicolon)
    } else {
        None
    }
}
