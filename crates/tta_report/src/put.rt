//! Putting lines.

ghost use Rattle.std.specs.Prelude.{◌++◌, codes, decimal, is_err};
ghost use Rattle.tta_ports.specs.Faults.{CountsFault};
ghost use Rattle.tta_ports.specs.Sink.{PutsBytes};
ghost use Rattle.tta_report.specs.Lines.{line_text, lines_text};

use crate::line::Line;
use crate::text::text_of;
use itoa::write_digits;
use tta_ports::{Failed, Sink};

/// How many digits a word can have.
const DIGITS: usize = 10;

/// Puts a word on a line of its own. Its digits are put from where they are written, since a run puts
/// nothing as often as words.
fn put_word_line<S: Sink>(sink: &mut S, word: u32) -> Result<(), Failed>
    ensures grows { PutsBytes (decimal word ++ codes "\n") (S.output sink.old).taken
        (S.output sink.new).taken result }
    ensures cause { CountsFault (is_err result) (S.output sink.old).faults
        (S.output sink.new).faults }
{
    let mut line = [b'\n'; DIGITS + 1];
    let start = write_digits(u64::from(word), &mut line, DIGITS);
    sink.put(&line[start..])
}

/// Puts a line, which ends with a newline, in one piece. It takes no memory.
///
/// It answers `Failed` where the sink does, which has then taken a prefix of the line.
pub fn put_line<S: Sink>(sink: &mut S, line: &Line) -> Result<(), Failed>
    ensures grows { PutsBytes (line_text line.now) (S.output sink.old).taken
        (S.output sink.new).taken result }
    ensures cause { CountsFault (is_err result) (S.output sink.old).faults
        (S.output sink.new).faults }
{
    if let Line::Word(word) = line {
        return put_word_line(sink, *word);
    }
    let text = text_of(line);
    sink.put(text.as_bytes())
}

/// Puts lines one after another. It takes no memory.
///
/// It answers `Failed` at the first line at which the sink does, which has then taken a prefix of
/// all these lines.
pub fn put_lines<S: Sink>(sink: &mut S, lines: &[Line]) -> Result<(), Failed>
    ensures grows { PutsBytes (lines_text lines.now) (S.output sink.old).taken
        (S.output sink.new).taken result }
    ensures cause { CountsFault (is_err result) (S.output sink.old).faults
        (S.output sink.new).faults }
{
    'lines: for line in lines {
        put_line(sink, line)?;
    }
    Ok(())
}
