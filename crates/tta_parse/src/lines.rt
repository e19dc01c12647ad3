//! The lines of a text.

ghost use Rattle.std.specs.Prelude.{◌≡◌, ◌+◌, ◌^◌, ◌≤◌, true, length, map, IfOk, vec_capacity};
ghost use Rattle.tta_parse.specs.Calls.{Takes, Ends};
ghost use Rattle.tta_parse.specs.Lines.{plain};
ghost use Rattle.tta_parse.specs.Lines as spec;

use crate::word::Word;
use std::alloc::AllocError;
use std::marker::Model;
use tta_text::{Kind, Scanner};

/// A reader of the lines of a text, one after another. A contract sees it as the lines that are
/// left.
#[derive(Drop)]
pub struct Lines<'t> {
    text: &'t [u8],
    scanner: Scanner<'t>,
}

impl<'t> Model for Lines<'t> {
    ghost use Rattle.std.specs.Prelude.{◌≡◌, List, []};
    ghost use Rattle.tta_parse.specs.Lines.{Line, lines_from};

    ghost Value = { List Line };

    ghost view = { λ s. lines_from s.text.now [] s.scanner.tokens };

    ghost invariant = { λ s. s.scanner.text ≡ s.text.now };
}

impl<'t> Lines<'t> {
    /// A reader that stands at the first line of a text of at most 2^24 bytes.
    #[tactic(auto, unfolding(crate::specs::Lines::lines_of))]
    pub fn new(text: &'t [u8]) -> Lines<'t>
        requires { length text.now ≤ 2 ^ 24 }
        ensures lines { result ≡ spec.lines_of text.now }
        ensures few { length result ≤ 2 ^ 24 + 1 }
    {
        Lines {
            text,
            scanner: Scanner::new(text),
        }
    }

    /// Reads the words of the next line into `words`, in the place of those that it had, and
    /// answers `true`. Where no line is left, it answers `false`. An `Err` is lack of memory, and
    /// leaves the reader within a line. All calls together take time that is linear in the text.
    pub fn next_line(&mut self, words: &mut Vec<Word<'t>>) -> Result<bool, AllocError>
        ensures more { IfOk result (λ more.
            Takes more (map plain words.new.items) self.old self.new) }
        ensures none { IfOk result (λ more. Ends more self.old self.new) }
        ensures counted { IfOk result (λ more.
            more ≡ true → length self.old ≡ length self.new + 1) }
        ensures room { vec_capacity words.old ≤ vec_capacity words.new }
    {
        words.clear();
        let text = self.text;
        while let Some(token) = self.scanner.next_token() {
            if is_line_end(token.kind) {
                return Ok(true);
            }
            words.push(Word {
                kind: token.kind,
                text: &text[token.start..token.end],
            })?;
        }
        Ok(false)
    }
}

/// A token of this kind ends a line.
fn is_line_end(kind: Kind) -> bool
    ensures { result ≡ spec.is_line_end kind }
{
    matches!(kind, Kind::Eol)
}
