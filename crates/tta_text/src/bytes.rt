//! Classes of bytes, and runs of them.

ghost use Rattle.std.specs.Prelude.{◌≡◌, ◌≤◌, length};
ghost use Rattle.tta_text.specs.Bytes as spec;

/// Whether a name can begin with the byte: a letter or `_`.
pub(crate) fn is_name_start(byte: u8) -> bool
    ensures { result ≡ spec.is_name_start byte }
{
    byte.is_ascii_alphabetic() || byte == b'_'
}

/// Whether a name or a number can go on with the byte: a letter, a digit or `_`.
pub(crate) fn is_word_byte(byte: u8) -> bool
    ensures { result ≡ spec.is_word_byte byte }
{
    byte.is_ascii_alphanumeric() || byte == b'_'
}

/// Whether the byte is a space, a tab or a carriage return.
pub(crate) fn is_blank(byte: u8) -> bool
    ensures { result ≡ spec.is_blank byte }
{
    byte == b' ' || byte == b'\t' || byte == b'\r'
}

/// Whether the byte is a mark by itself.
pub(crate) fn is_mark(byte: u8) -> bool
    ensures { result ≡ spec.is_mark byte }
{
    b".,;:=?![]".contains(&byte)
}

/// How many letters, digits and `_` stand at the start.
pub(crate) fn run_len(bytes: &[u8]) -> usize
    ensures len { result ≡ spec.run_len bytes.now }
    ensures within { result ≤ length bytes.now }
{
    bytes.iter().take_while(|byte| is_word_byte(**byte)).count()
}

/// How many bytes stand before the end of the line.
pub(crate) fn line_len(bytes: &[u8]) -> usize
    ensures len { result ≡ spec.line_len bytes.now }
    ensures within { result ≤ length bytes.now }
{
    bytes.iter().take_while(|byte| **byte != b'\n').count()
}

/// Whether the first byte is a digit.
pub(crate) fn starts_with_digit(bytes: &[u8]) -> bool
    ensures { result ≡ spec.starts_with_digit bytes.now }
{
    match bytes {
        [first, ..] => first.is_ascii_digit(),
        [] => false,
    }
}
