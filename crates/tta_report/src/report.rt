//! Putting the end of a run.

ghost use Rattle.std.specs.Prelude.{◌<◌, ◌^◌, length, is_err};
ghost use Rattle.tta_ports.specs.Faults.{CountsFault};
ghost use Rattle.tta_ports.specs.Sink.{PutsBytes};
ghost use Rattle.tta_report.specs.Lines.{lines_text, report_lines};

use crate::line::Line;
use crate::memory::put_memory;
use crate::put::put_line;
use tta_ports::{Failed, Sink};

/// Puts what follows the words of a run: how it ended, a line for each data word that is not 0, and
/// how long it was. It takes no memory.
///
/// It answers `Failed` at the first line at which the sink does, which has then taken a prefix of
/// all these lines.
pub fn put_report<S: Sink>(
    sink: &mut S,
    outcome: &Line,
    words: &[u32],
    count: &Line,
) -> Result<(), Failed>
    requires { length words.now < 2 ^ 32 }
    ensures grows { PutsBytes (lines_text (report_lines outcome.now words.now count.now))
        (S.output sink.old).taken (S.output sink.new).taken result }
    ensures cause { CountsFault (is_err result) (S.output sink.old).faults
        (S.output sink.new).faults }
{
    put_line(sink, outcome)?;
    put_memory(sink, words)?;
    put_line(sink, count)
}
