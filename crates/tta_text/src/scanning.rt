//! Reading the tokens of a text one after another.

ghost use Rattle.std.specs.Prelude.{◌≡◌, ◌+◌, ◌^◌, ◌<◌, ◌≤◌, ◌↔◌, ◌++◌, [], length, IfSome, IsNone};
ghost use Rattle.std.specs.Prelude.{option_to_list};
ghost use Rattle.tta_text.specs.Tokens as spec;

use crate::lexeme::{Kind, Token};
use crate::pieces::piece_of;
use std::marker::Model;

/// A reader of the tokens of a text. A contract sees it as the text and the tokens still to come.
#[derive(Drop)]
pub struct Scanner<'a> {
    text: &'a [u8],
    at: usize,
    line: u32,
    /// Bytes of the line stand before this place, so the line has an end also where the text ends.
    is_open: bool,
}

impl<'a> Model for Scanner<'a> {
    ghost use Rattle.std.specs.Prelude.{drop};
    ghost use Rattle.tta_text.specs.Reading.{Reading, IsWithin};
    ghost use Rattle.tta_text.specs.Tokens.{tokens_from};

    ghost Value = { Reading };

    ghost view = { λ s. record {
      text = s.text.now;
      tokens = tokens_from 0 s.is_open s.line s.at (drop s.at s.text.now);
    } };

    ghost invariant = { λ s. IsWithin s.text.now s.at s.line };
}

impl<'a> Scanner<'a> {
    /// A reader that stands at the first byte of a text of at most 2^24 bytes.
    pub fn new(text: &'a [u8]) -> Scanner<'a>
        requires { length text.now ≤ 2 ^ 24 }
        ensures { result ≡ record { text = text.now; tokens = spec.tokens_of text.now } }
    {
        Scanner {
            text,
            at: 0,
            line: 1,
            is_open: false,
        }
    }

    /// The next token, and `None` where none is left. The bytes of a token are
    /// `text[token.start..token.end]`.
    pub fn next_token(&mut self) -> Option<Token>
        ensures same_text { self.new.text ≡ self.old.text }
        ensures next { self.old.tokens ≡ option_to_list result ++ self.new.tokens }
        ensures none { IsNone result ↔ (self.old.tokens ≡ []) }
        ensures rising { IfSome result (λ token. token.start ≤ token.end) }
        ensures within { IfSome result (λ token. token.end ≤ length self.old.text) }
        ensures line { IfSome result (λ token. token.line ≤ 2 ^ 24 + 1) }
    {
        while self.at < self.text.len() {
            let start = self.at;
            let line = self.line;
            let byte = self.text[start];
            let piece = piece_of(&self.text[start..]);
            self.at = start + piece.len;
            self.line = line_after(byte, line);
            self.is_open = byte != b'\n';
            if let Some(kind) = piece.kind {
                return Some(Token {
                    line,
                    start,
                    end: self.at,
                    kind,
                });
            }
        }
        if !self.is_open {
            return None;
        }
        self.is_open = false;
        Some(Token {
            line: self.line,
            start: self.at,
            end: self.at,
            kind: Kind::Eol,
        })
    }
}

/// The line after a byte of this line.
fn line_after(byte: u8, line: u32) -> u32
    requires { line < 2 ^ 31 }
    ensures line { result ≡ spec.line_after byte line }
    ensures next { result ≤ line + 1 }
{
    if byte == b'\n' { line + 1 } else { line }
}
