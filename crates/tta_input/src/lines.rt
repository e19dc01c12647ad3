//! The lines of a file, one after another.

ghost use Rattle.std.specs.Prelude.{◌≡◌, ◌∷◌, [], ◌≤◌, not, length, MatchOption};
ghost use Rattle.std.specs.List.{prefix_len};
ghost use Rattle.tta_input.specs.Lines as spec;

use std::marker::Model;

/// A reader of lines. A contract sees it as the lines that are left.
#[derive(Drop)]
pub(crate) struct Lines<'t> {
    rest: &'t [u8],
}

impl<'t> Model for Lines<'t> {
    ghost use Rattle.std.specs.Prelude.{ℕ, List};
    ghost use Rattle.tta_input.specs.Lines.{lines_of};

    ghost Value = { List (List ℕ) };

    ghost view = { λ s. lines_of s.rest.now };
}

impl<'t> Lines<'t> {
    /// The lines of these bytes.
    pub(crate) fn new(bytes: &'t [u8]) -> Lines<'t>
        ensures lines { result ≡ spec.lines_of bytes.now }
        ensures few { length result ≤ length bytes.now }
    {
        Lines { rest: bytes }
    }

    /// The next line, without the newline that ends it and a carriage return directly before that,
    /// and `None` where no line is left.
    pub(crate) fn next_line(&mut self) -> Option<&'t [u8]>
        ensures { MatchOption result (self.old ≡ []) (λ line. self.old ≡ line.now ∷ self.new) }
    {
        let rest = self.rest;
        if rest.is_empty() {
            return None;
        }
        let end = line_len(rest);
        if end == rest.len() {
            self.rest = &[];
            return Some(rest);
        }
        self.rest = &rest[end + 1..];
        Some(without_return(&rest[..end]))
    }
}

/// How many bytes stand before the first newline.
fn line_len(bytes: &[u8]) -> usize
    ensures len { result ≡ prefix_len (λ byte. not (spec.is_newline byte)) bytes.now }
    ensures within { result ≤ length bytes.now }
{
    bytes.iter().take_while(|byte| **byte != b'\n').count()
}

/// A line without one carriage return at its end.
fn without_return(line: &[u8]) -> &[u8]
    ensures { result.now ≡ spec.without_return line.now }
{
    line.strip_suffix(b"\r").unwrap_or(line)
}
