//! Output, as the toolset sees it.

use crate::Failed;

/// What takes output, piece by piece.
pub trait Sink {
    ghost use Rattle.std.specs.Prelude.{◌<◌, ◌≤◌, ◌^◌, is_err};
    ghost use Rattle.tta_ports.specs.Faults.{CountsFault};
    ghost use Rattle.tta_ports.specs.Sink.{PutsBytes};
    ghost use Rattle.tta_ports.specs.Output.{Output};

    /// All the bytes that it has taken, where it shows them, and how often a put has failed.
    ghost output: { Self → Output };

    /// Takes all the bytes.
    ///
    /// It answers `Failed` where the outside failed, which the count of faults shows. It has then
    /// taken a prefix of the bytes.
    fn put(&mut self, bytes: &[u8]) -> Result<(), Failed>
        ensures grows { PutsBytes bytes.now
            (output self.old).taken (output self.new).taken result }
        ensures cause { CountsFault (is_err result)
            (output self.old).faults (output self.new).faults }
        ensures later { (output self.old).faults ≤ (output self.new).faults }
        ensures bounded { (output self.new).faults < 2 ^ 64 };
}
