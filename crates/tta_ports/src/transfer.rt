//! The loops that move bytes between memory and the host.

ghost use Rattle.std.specs.Prelude.{ℕ, take, OnOk, OnErr};
ghost use Rattle.std.specs.Io.KnownBytes.{Appends};
ghost use Rattle.tta_ports.specs.Transfer.{ReadsUpTo};

use crate::{Failed, ReadError};
use std::alloc::Global;
use std::io::{Read, Write};

/// How many bytes one read asks for.
const PIECE: usize = 4096;

/// All the bytes of a reader, if there are at most `limit`.
///
/// It stops as soon as it has read more than that. A read that gives nothing ends the input.
pub fn read_up_to<R: Read>(alloc: Global, reader: &mut R, limit: u64) -> Result<Vec<u8>, ReadError>
    ensures { ReadsUpTo (R.remaining reader.old) limit result }
{
    let mut bytes = Vec::new(alloc);
    let mut piece = [0u8; PIECE];
    for _ in 0..u64::MAX {
        let count = match reader.read(&mut piece) {
            Ok(count) => count,
            Err(_) => return Err(ReadError::Failed),
        };
        if count == 0 {
            return Ok(bytes);
        }
        let total = bytes.len() as u64 + count as u64;
        if total > limit {
            return Err(ReadError::TooLong { count: total });
        }
        bytes.extend_from_slice(&piece[..count])?;
    }
    Err(ReadError::Failed)
}

/// Writes all the bytes, or a prefix of them where it fails.
///
/// A write that takes nothing of what is left is a fault.
pub fn write_whole<W: Write>(writer: &mut W, bytes: &[u8]) -> Result<(), Failed>
    ensures ok { OnOk result (Appends (W.contents writer.old) (W.contents writer.new) bytes.now) }
    ensures err { OnErr result ((count : ℕ)
        × Appends (W.contents writer.old) (W.contents writer.new) (take count bytes.now)) }
{
    let mut rest = bytes;
    for _ in 0..u64::MAX {
        if rest.is_empty() {
            return Ok(());
        }
        match writer.write(rest) {
            Ok(0) => return Err(Failed),
            Ok(count) => rest = &rest[count..],
            Err(_) => return Err(Failed),
        }
    }
    Err(Failed)
}
