//! Lines that come one by one, as the toolset sees them.

use crate::LineError;

/// What gives lines, one at a call.
pub trait Lines {
    ghost use Rattle.std.specs.Prelude.{◌<◌, ◌≤◌, length};
    ghost use Rattle.tta_stdin.specs.Come.{Come, Comes, IfLine};

    /// The lines that have come, where they are shown, whether the end has come, how often a call has
    /// failed, and the limit of the latest line that was too long.
    ghost come: { Self → Come };

    /// The next line, without the newline that ends it, and `None` at the end, after which nothing
    /// comes. Bytes after the last newline are a line too. A line that comes has at most `limit`
    /// bytes, its newline among them where it has one.
    ///
    /// It answers `Failed` where the outside failed, which the count of faults shows; `TooLong` where
    /// more than `limit` bytes of a line came, which is kept; and `NoMemory` where there was none for
    /// the line. What has come of the line is then lost.
    fn next_line(&mut self, limit: u64) -> Result<Option<Vec<u8>>, LineError>
        ensures comes { Comes limit (come self.old) (come self.new) result }
        ensures within { IfLine result (λ line. length line ≤ limit) }
        ensures some { IfLine result (λ line. 0 < limit) };
}
