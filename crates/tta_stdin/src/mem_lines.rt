//! Lines in memory, for tests: calls fail where they are asked to.

ghost use Rattle.std.specs.Prelude.{◌≡◌, ◌++◌, ◌∷◌, [], ◌<◌, ◌≤◌, ◌^◌, length, OnOk, OnErr};

use crate::{LineError, Lines};
use std::alloc::{AllocError, Global};
use std::marker::Model;
use tta_list::Name;

/// Lines in memory. Calls are numbered from 1, whatever they answer, and those whose numbers were
/// handed in fail, but after the end. A line counts with its newline: it comes where it has fewer
/// bytes than the limit, and is too long where it has not, and then comes again.
#[derive(Drop)]
pub struct MemLines {
    alloc: Global,
    all: Vec<Name>,
    at: usize,
    ended: bool,
    failing: Vec<u64>,
    calls: u64,
    faults: u64,
    overlong: Option<u64>,
}

impl Model for MemLines {
    ghost use Rattle.std.specs.Prelude.{◌<◌, ◌≤◌, ◌^◌, length};
    ghost use Rattle.tta_stdin.specs.Queue.{Queue};

    ghost Value = { Queue };

    ghost view = { λ m. record {
      all = m.all.items;
      at = m.at;
      ended = m.ended;
      failing = m.failing.items;
      calls = m.calls;
      faults = m.faults;
      overlong = m.overlong;
    } };

    ghost invariant = { λ m. (m.at ≤ length m.all.items)
        × (m.faults < 2 ^ 64) };
}

impl MemLines {
    ghost use Rattle.tta_stdin.specs.Queue.{new_queue, fails_next};
    ghost use Rattle.tta_ports.specs.Faults.{next_count};

    /// No lines. `failing` has the numbers of the calls that are to fail.
    pub fn new(alloc: Global, failing: Vec<u64>) -> Self
        ensures { result ≡ new_queue failing.items }
    {
        MemLines {
            alloc,
            all: Vec::new(alloc),
            at: 0,
            ended: false,
            failing,
            calls: 0,
            faults: 0,
            overlong: None,
        }
    }

    /// Gives it a line more, after those that it has. This is no numbered call.
    ///
    /// It fails only where there is no memory, and then the lines are as before.
    pub fn add(&mut self, line: &[u8]) -> Result<(), AllocError>
        ensures ok { OnOk result (self.new
            ≡ record self.old { all = self.old.all ++ line.now ∷ [] }) }
        ensures err { OnErr result (self.new ≡ self.old) }
    {
        let line = Name::new(self.alloc, line)?;
        self.all.push(line)?;
        Ok(())
    }

    /// Counts a call, and says whether it is to fail.
    fn begin_call(&mut self) -> bool
        ensures answer { result ≡ fails_next self.old }
        ensures counted { self.new ≡ record self.old { calls = next_count self.old.calls } }
        ensures inside { self.old.at ≤ length self.old.all }
        ensures kept { self.old.faults < 2 ^ 64 }
    {
        self.calls = self.calls.saturating_add(1);
        self.failing.contains(&self.calls)
    }
}

impl Lines for MemLines {
    ghost use Rattle.tta_stdin.specs.Come.{Comes, IfLine};
    ghost use Rattle.tta_stdin.specs.Queue.{come_of, line_answer, LineAnswers, after_call};

    ghost come = { λ m. come_of m };

    fn next_line(&mut self, limit: u64) -> Result<Option<Vec<u8>>, LineError>
        // It answers so exactly by its lines and by the number of the call, unless memory is short.
        ensures exact { LineAnswers (line_answer self.old limit) result }
        ensures after { self.new ≡ after_call self.old limit result }

        // What all lines say.
        ensures comes { Comes limit (come_of self.old) (come_of self.new) result }
        ensures within { IfLine result (λ line. length line ≤ limit) }
        ensures some { IfLine result (λ line. 0 < limit) }
    {
        let must_fail = self.begin_call();
        if self.ended {
            return Ok(None);
        }
        if must_fail {
            self.faults = self.faults.saturating_add(1);
            return Err(LineError::Failed);
        }
        let Some(line) = self.all.get(self.at) else {
            self.ended = true;
            return Ok(None);
        };
        if line.as_bytes().len() as u64 >= limit {
            self.overlong = Some(limit);
            return Err(LineError::TooLong);
        }
        let line = line.as_bytes().to_vec(self.alloc)?;
        self.at += 1;
        Ok(Some(line))
    }
}
