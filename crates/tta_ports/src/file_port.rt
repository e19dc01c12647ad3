//! Named files, as the toolset sees them.

use crate::{ReadError, WriteError};

/// Files that are read and written whole, by name.
pub trait Files {
    ghost use Rattle.std.specs.Prelude.{◌≡◌, ◌<◌, ◌≤◌, ◌^◌, length, IfOk};
    ghost use Rattle.tta_ports.specs.declared.fault.Fault.TheVariants.{Read, Write};
    ghost use Rattle.tta_ports.specs.World.{World};
    ghost use Rattle.tta_ports.specs.Faults.{CountsFault, TellsFault};
    ghost use Rattle.tta_ports.specs.Files.{Holds, HoldsMore, IfTooLong, WritesFile, read_failed};
    ghost use Rattle.tta_ports.specs.Files.{write_failed};

    /// The bytes of each name, where these files show them, how often a call has failed, and the
    /// call that failed last.
    ghost world: { Self → World };

    /// The bytes of a name, if there are at most `limit` of them. A missing name is a fault.
    ///
    /// It answers `Failed` where the outside failed, which the count of faults shows, and
    /// `TooLong` where there are more bytes than `limit`. No file changes at any answer.
    fn read(&mut self, name: &str, limit: u64) -> Result<Vec<u8>, ReadError>
        ensures bytes { IfOk result (λ v. Holds (world self.old).contents name.now v.items) }
        ensures within { IfOk result (λ v. length v.items ≤ limit) }
        ensures above { IfTooLong result (λ count. limit < count) }
        ensures exceeds { IfTooLong result (λ count.
            HoldsMore (world self.old).contents name.now count) }
        ensures unchanged { (world self.new).contents ≡ (world self.old).contents }

        // It fails only where the count rose, and is then the latest fault.
        ensures cause { CountsFault (read_failed result)
            (world self.old).faults (world self.new).faults }
        ensures blame { TellsFault (read_failed result) (Read name.now)
            (world self.old).latest (world self.new).latest }
        ensures later { (world self.old).faults ≤ (world self.new).faults }
        ensures bounded { (world self.new).faults < 2 ^ 64 };

    /// Makes the name hold the bytes, and leaves each other name as it is.
    ///
    /// It answers `Failed` where the outside failed, which the count of faults shows. The name
    /// then holds a prefix of the bytes, or what it held before. After `NoMemory` every file is
    /// as before.
    fn write(&mut self, name: &str, bytes: &[u8]) -> Result<(), WriteError>
        ensures written { WritesFile name.now bytes.now
            (world self.old).contents (world self.new).contents result }

        // It fails only where the count rose, and is then the latest fault.
        ensures cause { CountsFault (write_failed result)
            (world self.old).faults (world self.new).faults }
        ensures blame { TellsFault (write_failed result) (Write name.now)
            (world self.old).latest (world self.new).latest }
        ensures later { (world self.old).faults ≤ (world self.new).faults }
        ensures bounded { (world self.new).faults < 2 ^ 64 };
}
