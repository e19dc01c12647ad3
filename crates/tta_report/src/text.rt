//! The text of a line.

ghost use Rattle.std.specs.Prelude.{◌≡◌, ◌+◌, ◌≤◌, ◌++◌, codes, decimal};
ghost use Rattle.arrayvec.specs.ArrayString.{array_string_len};
ghost use Rattle.tta_report.specs.Lines.{line_text};

use crate::line::Line;
use arrayvec::ArrayString;
use itoa::Buffer;

/// How many bytes a line has room for; the longest takes 31.
pub const ROOM: usize = 64;

/// Appends a number to a text. A number of 64 bits has at most 20 digits.
pub fn push_number(text: &mut ArrayString<ROOM>, n: u64)
    requires { array_string_len text.old + 20 ≤ 64 }
    ensures bytes { text.new.bytes ≡ text.old.bytes ++ decimal n }
    ensures room { array_string_len text.new ≤ array_string_len text.old + 20 }
{
    let mut buffer = Buffer::new();
    text.push_str(buffer.format(n));
}

/// Appends two numbers with a blank between them to a word.
fn push_two(text: &mut ArrayString<ROOM>, first: u64, second: u64)
    requires { array_string_len text.old ≤ 6 }
    ensures bytes { text.new.bytes
        ≡ text.old.bytes ++ decimal first ++ codes " " ++ decimal second }
    ensures room { array_string_len text.new ≤ 47 }
{
    push_number(text, first);
    text.push_str(" ");
    push_number(text, second);
}

/// Puts what a line says into an empty text.
fn push_line(text: &mut ArrayString<ROOM>, line: &Line)
    requires { array_string_len text.old ≡ 0 }
    ensures bytes { text.new.bytes ++ codes "\n" ≡ line_text line.now }
    ensures room { array_string_len text.new ≤ 47 }
{
    match line {
        Line::Word(word) => push_number(text, u64::from(*word)),
        Line::Halted => text.push_str("halted"),
        Line::Running => text.push_str("running"),
        Line::Waiting => text.push_str("waiting"),
        Line::Fault { code, cycle } => {
            text.push_str("fault ");
            push_two(text, u64::from(*code), *cycle);
        }
        Line::Memory { address, word } => {
            text.push_str("mem ");
            push_two(text, u64::from(*address), u64::from(*word));
        }
        Line::Steps(count) => {
            text.push_str("steps ");
            push_number(text, *count);
        }
        Line::Cycles(count) => {
            text.push_str("cycles ");
            push_number(text, *count);
        }
        Line::Lines(count) => {
            text.push_str("lines ");
            push_number(text, *count);
        }
        Line::Words(count) => {
            text.push_str("words ");
            push_number(text, *count);
        }
        Line::Outputs(count) => {
            text.push_str("outputs ");
            push_number(text, *count);
        }
        Line::Core(core) => {
            text.push_str("core ");
            push_number(text, u64::from(*core));
        }
        Line::Equal(true) => text.push_str("equal yes"),
        Line::Equal(false) => text.push_str("equal no"),
    }
}

/// A line with its end.
pub fn text_of(line: &Line) -> ArrayString<ROOM>
    ensures { result.bytes ≡ line_text line.now }
{
    let mut text = ArrayString::new();
    push_line(&mut text, line);
    text.push_str("\n");
    text
}
