//! Putting what a core has output.

ghost use Rattle.std.specs.Prelude.{is_err};
ghost use Rattle.tta_ports.specs.Faults.{CountsFault};
ghost use Rattle.tta_ports.specs.Sink.{PutsBytes};
ghost use Rattle.tta_report.specs.Lines.{lines_text, word_lines, core_lines};

use crate::line::Line;
use crate::put::put_line;
use tta_ports::{Failed, Sink};

/// Puts a line for each word. It takes no memory.
///
/// It answers `Failed` at the first line at which the sink does, which has then taken a prefix of
/// all these lines.
fn put_words<S: Sink>(sink: &mut S, words: &[u32]) -> Result<(), Failed>
    ensures grows { PutsBytes (lines_text (word_lines words.now))
        (S.output sink.old).taken (S.output sink.new).taken result }
    ensures cause { CountsFault (is_err result) (S.output sink.old).faults
        (S.output sink.new).faults }
{
    'words: for word in words {
        put_line(sink, &Line::Word(*word))?;
    }
    Ok(())
}

/// Puts what a core has output: the core's number, a line for each word, and how its last turn ended.
/// It takes no memory.
///
/// It answers `Failed` at the first line at which the sink does, which has then taken a prefix of
/// all these lines.
pub fn put_core<S: Sink>(sink: &mut S, core: u8, words: &[u32], last: &Line) -> Result<(), Failed>
    ensures grows { PutsBytes (lines_text (core_lines core words.now last.now))
        (S.output sink.old).taken (S.output sink.new).taken result }
    ensures cause { CountsFault (is_err result) (S.output sink.old).faults
        (S.output sink.new).faults }
{
    put_line(sink, &Line::Core(core))?;
    put_words(sink, words)?;
    put_line(sink, last)
}
