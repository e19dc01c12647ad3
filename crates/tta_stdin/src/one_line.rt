//! Reading a line from a reader.

ghost use Rattle.tta_stdin.specs.OneLine.{ReadsLine};

use crate::LineError;
use std::alloc::Global;
use std::io::Read;

/// The next line of a reader, without its newline: all bytes before the newline, or all that there
/// are before the end, where there are some. It reads no byte after the newline.
///
/// It answers `TooLong` as soon as more than `limit` bytes have come, the newline among them.
pub fn read_line<R: Read>(
    alloc: Global,
    reader: &mut R,
    limit: u64,
) -> Result<Option<Vec<u8>>, LineError>
    ensures { ReadsLine (R.remaining reader.old) (R.remaining reader.new) limit result }
{
    let mut line = Vec::new(alloc);
    let mut byte = [0u8; 1];
    'bytes: while line.len() as u64 <= limit {
        let count = match reader.read(&mut byte) {
            Ok(count) => count,
            Err(_) => return Err(LineError::Failed),
        };
        if count == 0 {
            return Ok(if line.is_empty() { None } else { Some(line) });
        }
        if line.len() as u64 == limit {
            return Err(LineError::TooLong);
        }
        if byte[0] == b'\n' {
            return Ok(Some(line));
        }
        if line.push(byte[0]).is_err() {
            return Err(LineError::NoMemory);
        }
    }
    Err(LineError::TooLong)
}
