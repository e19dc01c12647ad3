//! What a token is.

/// The kinds of tokens.
#[derive(Clone, Copy, Debug, PartialEq, Eq)]
pub enum Kind {
    /// A letter or `_`, and then letters, digits and `_`.
    Name,
    /// Decimal digits below 2^32, or `0x` and one to eight hexadecimal digits.
    Number,
    /// `-` and decimal digits of at most 2^31.
    Negative,
    /// `->`, `...`, or one of `.` `,` `;` `:` `=` `?` `!` `[` `]`.
    Mark,
    /// The end of a line: its newline, or nothing at the end of a last line that has none.
    Eol,
    /// What no other kind allows: a run that begins with a digit and is no number, together with
    /// the `-` before it, or any other single byte.
    Bad,
}

/// A token: the line that it stands on, counted from 1, its bytes, from `start` up to `end`
/// exclusive, counted from 0 at the text's begin, and its kind.
#[derive(Clone, Copy, Debug, PartialEq, Eq)]
pub struct Token {
    pub line: u32,
    pub start: usize,
    pub end: usize,
    pub kind: Kind,
}
