//! The standard input, line by line.

ghost use Rattle.std.specs.Prelude.{◌≡◌, false, None};

use crate::one_line::read_line;
use crate::{LineError, Lines};
use std::marker::Model;

/// The lines of the standard input of the host, which the runtime reaches. What has come is not shown.
///
/// A byte is read at a time, and none after the newline of the line that is asked for. After the end
/// nothing is read.
#[derive(Drop)]
pub struct RealLines<R> {
    rt: R,
    ended: bool,
    faults: u64,
    overlong: Option<u64>,
}

impl<R> Model for RealLines<R> {
    ghost use Rattle.std.specs.Prelude.{◌<◌, ◌^◌, None};
    ghost use Rattle.tta_stdin.specs.Come.{Come};

    ghost Value = { Come };

    ghost view = { λ l. record {
      lines = None;
      ended = l.ended;
      faults = l.faults;
      overlong = l.overlong;
    } };

    ghost invariant = { λ l. l.faults < 2 ^ 64 };
}

impl<R> RealLines<R> {
    /// The standard input of the host that `rt` stands for. Nothing has come yet.
    pub fn new(rt: R) -> Self
        ensures { result ≡ record { lines = None; ended = false; faults = 0; overlong = None } }
    {
        RealLines {
            rt,
            ended: false,
            faults: 0,
            overlong: None,
        }
    }
}

impl<R: Input + AllocGlobal> Lines for RealLines<R> {
    ghost come = { λ l. l };

    fn next_line(&mut self, limit: u64) -> Result<Option<Vec<u8>>, LineError> {
        if self.ended {
            return Ok(None);
        }
        let mut reader = self.rt.reader();
        match read_line(self.rt.alloc(), &mut reader, limit) {
            Ok(Some(line)) => Ok(Some(line)),
            Ok(None) => {
                self.ended = true;
                Ok(None)
            }
            Err(LineError::Failed) => {
                self.faults = self.faults.saturating_add(1);
                Err(LineError::Failed)
            }
            Err(LineError::TooLong) => {
                self.overlong = Some(limit);
                Err(LineError::TooLong)
            }
            Err(LineError::NoMemory) => Err(LineError::NoMemory),
        }
    }
}
