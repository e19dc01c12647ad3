//! Putting the words of a memory.

ghost use Rattle.std.specs.Prelude.{◌<◌, ◌^◌, [], ◌∷◌, length, is_err};
ghost use Rattle.tta_ports.specs.Faults.{CountsFault};
ghost use Rattle.tta_ports.specs.Sink.{PutsBytes};
ghost use Rattle.tta_report.specs.Lines.{lines_text, memory_lines};

use crate::line::Line;
use crate::put::put_line;
use tta_ports::{Failed, Sink};

/// Puts a line for a word that is not 0, and nothing for any other.
fn put_word<S: Sink>(sink: &mut S, address: u32, word: u32) -> Result<(), Failed>
    ensures grows { PutsBytes (lines_text (memory_lines address (word ∷ [])))
        (S.output sink.old).taken (S.output sink.new).taken result }
    ensures cause { CountsFault (is_err result) (S.output sink.old).faults
        (S.output sink.new).faults }
{
    if word == 0 {
        return Ok(());
    }
    put_line(sink, &Line::Memory { address, word })
}

/// Puts a line for each word that is not 0, by its address from 0 on. It takes no memory.
///
/// It answers `Failed` at the first line at which the sink does, which has then taken a prefix of
/// all these lines.
pub fn put_memory<S: Sink>(sink: &mut S, words: &[u32]) -> Result<(), Failed>
    requires { length words.now < 2 ^ 32 }
    ensures grows { PutsBytes (lines_text (memory_lines 0 words.now))
        (S.output sink.old).taken (S.output sink.new).taken result }
    ensures cause { CountsFault (is_err result) (S.output sink.old).faults
        (S.output sink.new).faults }
{
    let mut address = 0u32;
    'words: for word in words {
        put_word(sink, address, *word)?;
        address += 1;
    }
    Ok(())
}
