//! What stands at the start of some bytes.

ghost use Rattle.std.specs.Prelude.{◌≡◌, ◌<◌, ◌≤◌, ◌∷◌, length};
ghost use Rattle.tta_text.specs.Tokens as spec;

use crate::bytes::{is_blank, is_mark, is_name_start, line_len, run_len, starts_with_digit};
use crate::lexeme::Kind;
use crate::numbers::{negative, number};

/// As many bytes at the start of some as are a token of a kind, or a blank or a comment, which have
/// no kind.
#[derive(Clone, Copy)]
pub(crate) struct Piece {
    pub(crate) kind: Option<Kind>,
    pub(crate) len: usize,
}

impl Piece {
    /// A token of this kind, made of so many bytes.
    fn token(kind: Kind, len: usize) -> Piece
        ensures { result ≡ spec.token kind len }
    {
        Piece {
            kind: Some(kind),
            len,
        }
    }

    /// So many bytes that are no token.
    fn gap(len: usize) -> Piece
        ensures { result ≡ spec.gap len }
    {
        Piece { kind: None, len }
    }
}

/// What stands at the start of at least one byte.
pub(crate) fn piece_of(bytes: &[u8]) -> Piece
    requires { 0 < length bytes.now }
    ensures piece { result ≡ spec.piece_of bytes.now }
    ensures some { 0 < result.len }
    ensures within { result.len ≤ length bytes.now }
{
    piece_at(bytes[0], &bytes[1..], bytes)
}

/// The same of bytes whose first byte and rest are given as well.
#[tactic(auto, unfolding(crate::specs::Tokens::piece_at))]
fn piece_at(byte: u8, rest: &[u8], bytes: &[u8]) -> Piece
    requires { bytes.now ≡ byte ∷ rest.now }
    ensures piece { result ≡ spec.piece_at byte rest.now }
    ensures some { 0 < result.len }
    ensures within { result.len ≤ length bytes.now }
{
    match byte {
        b'\n' => Piece::token(Kind::Eol, 1),
        b'#' => Piece::gap(1 + line_len(rest)),
        _ if is_blank(byte) => Piece::gap(1),
        _ if is_name_start(byte) => Piece::token(Kind::Name, 1 + run_len(rest)),
        _ if byte.is_ascii_digit() => number_piece(bytes, 1 + run_len(rest)),
        b'-' if starts_with_digit(rest) => negative_piece(bytes, 1 + run_len(rest)),
        _ => mark_piece(byte, bytes),
    }
}

/// A run that begins with a digit: a number or a bad token of this length.
#[tactic(auto, unfolding(crate::specs::Tokens::number_piece))]
fn number_piece(bytes: &[u8], len: usize) -> Piece
    requires { len ≤ length bytes.now }
    ensures piece { result ≡ spec.number_piece bytes.now len }
    ensures len { result.len ≡ len }
{
    let kind = match number(&bytes[..len]) {
        Some(_) => Kind::Number,
        None => Kind::Bad,
    };
    Piece::token(kind, len)
}

/// `-` and a run that begins with a digit: a negative number or a bad token of this length.
#[tactic(auto, unfolding(crate::specs::Tokens::negative_piece))]
fn negative_piece(bytes: &[u8], len: usize) -> Piece
    requires { len ≤ length bytes.now }
    ensures piece { result ≡ spec.negative_piece bytes.now len }
    ensures len { result.len ≡ len }
{
    let kind = match negative(&bytes[..len]) {
        Some(_) => Kind::Negative,
        None => Kind::Bad,
    };
    Piece::token(kind, len)
}

/// A mark, or a byte that no token has.
#[tactic(auto, unfolding(crate::specs::Tokens::mark_piece))]
fn mark_piece(byte: u8, bytes: &[u8]) -> Piece
    requires { 0 < length bytes.now }
    ensures piece { result ≡ spec.mark_piece byte bytes.now }
    ensures some { 0 < result.len }
    ensures within { result.len ≤ length bytes.now }
{
    if bytes.starts_with(b"->") {
        Piece::token(Kind::Mark, 2)
    } else if bytes.starts_with(b"...") {
        Piece::token(Kind::Mark, 3)
    } else if is_mark(byte) {
        Piece::token(Kind::Mark, 1)
    } else {
        Piece::token(Kind::Bad, 1)
    }
}
