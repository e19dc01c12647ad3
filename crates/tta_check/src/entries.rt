//! What may hold of walks, by where they stand.

ghost use Rattle.std.specs.Prelude.{◌≡◌, ◌+◌, ◌*◌, ◌≤◌, ◌<◌, length, replicate, []};
ghost use Rattle.std.specs.Prelude.{slice_get, Some, None, OnOk, IfOk};
ghost use Rattle.std.specs.Option.{option_map};
ghost use Rattle.tta_check.specs.Going.{under_as, point_as};
ghost use Rattle.tta_check.specs.Tables.{ago, place_at, Sets, Fits, FitsSome, FitsBoth};
ghost use Rattle.tta_check.specs.Tables.{PutTo, PutSome, PutBoth, Grows};
ghost use Rattle.tta_check.specs.Carries.{CanCarry, Carried};

use crate::fault_numbers::{NO_INSTRUCTION, UNKNOWN_TARGET};
use crate::join::join;
use crate::measure::measure;
use crate::point::{ProgramPoint, Under, same_point};
use crate::state::AbstractState;
use crate::verdict::Verdict;
use crate::visit::{Outcome, Successor, visit};
use std::alloc::{AllocError, Global};
use tta_arch::Machine;
use tta_code::{Code, Instruction};

/// The entries that are kept, by program point, and the worklist: the places of those that are new
/// or have grown, and wait for their instruction.
#[derive(Drop)]
pub struct EntryTable {
    pub entries: Vec<Option<Successor>>,
    pub worklist: Vec<usize>,
}

/// How many cycles ago the control move under way was made; 0 where there is none.
fn ago(delay: u8, under: Option<Under>) -> u32
    ensures value { result ≡ ago delay (option_map under_as under) }
    ensures most { result ≤ delay }
{
    match under {
        None => 0,
        Some(u) => u32::from(delay).saturating_sub(u32::from(u.left)),
    }
}

/// The place of an entry.
fn place_of(delay: u8, point: ProgramPoint) -> usize
    ensures { result ≡ place_at delay (point_as point) }
{
    let since = ago(delay, point.under) as usize;
    point.address as usize * (usize::from(delay) + 1) + since
}

/// An entry.
fn entry_at(entries: &[Option<Successor>], place: usize) -> &Option<Successor>
    requires { place < length entries.now }
    ensures { slice_get entries.now place ≡ Some result.now }
{
    &entries[place]
}

/// An instruction.
fn word_at(words: &[Instruction], at: usize) -> &Instruction
    requires { at < length words.now }
    ensures { slice_get words.now at ≡ Some result.now }
{
    &words[at]
}

/// An abstract state joined with another, where it grows by that.
fn grown(
    alloc: Global,
    state: &AbstractState,
    other: &AbstractState,
) -> Result<Option<AbstractState>, AllocError>
    requires cells { length state.now.cells.items ≡ length other.now.cells.items }
    requires ports { length state.now.ports.items ≡ length other.now.ports.items }
    requires few { length state.now.ports.items ≤ 256 }
    ensures { IfOk result (λ r. Grows state.now other.now r) }
{
    let both = join(alloc, state, other)?;
    if measure(&both) == measure(state) {
        Ok(None)
    } else {
        Ok(Some(both))
    }
}

impl EntryTable {
    /// A table without entries.
    pub fn new(alloc: Global, delay: u8, len: usize) -> Result<EntryTable, AllocError>
        requires { len ≤ 65536 }
        ensures entries { IfOk result (λ t. t.entries.items
            ≡ replicate (len * (delay + 1)) None) }
        ensures worklist { IfOk result (λ t. t.worklist.items ≡ []) }
    {
        let count = len * (usize::from(delay) + 1);
        let mut entries = Vec::with_capacity(alloc, count)?;
        for _ in 0..count {
            entries.push(None)?;
        }
        Ok(EntryTable {
            entries,
            worklist: Vec::new(alloc),
        })
    }

    /// Puts an entry at a place, which waits.
    fn set(&mut self, place: usize, successor: Successor) -> Result<(), AllocError>
        requires { place < length self.old.entries.items }
        ensures { OnOk result (Sets place successor self.old self.new) }
    {
        self.entries[place] = Some(successor);
        self.worklist.push(place)?;
        Ok(())
    }

    /// Puts where walks go on into the table; it may be outside the code.
    pub fn put(
        &mut self,
        alloc: Global,
        delay: u8,
        len: usize,
        successor: Successor,
    ) -> Result<Option<Verdict>, AllocError>
        requires { Fits delay len successor self.old }
        ensures { IfOk result (λ r. PutTo delay len successor self.old self.new r) }
    {
        if len <= successor.point.address as usize {
            return Ok(Some(Verdict::Unsafe {
                code: NO_INSTRUCTION,
                word: successor.point.address,
            }));
        }
        let place = place_of(delay, successor.point);
        let verdict = self.put_at(alloc, delay, len, place, successor)?;
        Ok(verdict)
    }

    /// The same at its place in the table.
    fn put_at(
        &mut self,
        alloc: Global,
        delay: u8,
        len: usize,
        place: usize,
        successor: Successor,
    ) -> Result<Option<Verdict>, AllocError>
        requires fits { Fits delay len successor self.old }
        requires here { place ≡ place_at delay (point_as successor.point) }
        requires there { place < length self.old.entries.items }
        ensures { IfOk result (λ r. PutTo delay len successor self.old self.new r) }
    {
        let Some(old) = entry_at(&self.entries, place) else {
            self.set(place, successor)?;
            return Ok(None);
        };
        if !same_point(old.point, successor.point) {
            return Ok(Some(Verdict::Unsafe {
                code: UNKNOWN_TARGET,
                word: successor
                    .point
                    .address
                    .saturating_sub(ago(delay, successor.point.under)),
            }));
        }
        match grown(alloc, &old.state, &successor.state)? {
            None => Ok(None),
            Some(state) => {
                let point = successor.point;
                self.set(place, Successor { point, state })?;
                Ok(None)
            }
        }
    }

    /// The same where there is something.
    fn put_some(
        &mut self,
        alloc: Global,
        delay: u8,
        len: usize,
        successor: Option<Successor>,
    ) -> Result<Option<Verdict>, AllocError>
        requires { FitsSome delay len successor self.old }
        ensures { IfOk result (λ r. PutSome delay len successor self.old self.new r) }
    {
        match successor {
            None => Ok(None),
            Some(o) => {
                let verdict = self.put(alloc, delay, len, o)?;
                Ok(verdict)
            }
        }
    }

    /// Puts where walks go on into the table: where the control move acts, and where it does not.
    fn put_both(
        &mut self,
        alloc: Global,
        delay: u8,
        len: usize,
        acts: Option<Successor>,
        stays: Option<Successor>,
    ) -> Result<Option<Verdict>, AllocError>
        requires { FitsBoth delay len acts stays self.old }
        ensures { IfOk result (λ r. PutBoth delay len acts stays self.old self.new r) }
    {
        match self.put_some(alloc, delay, len, acts)? {
            Some(verdict) => Ok(Some(verdict)),
            None => {
                let verdict = self.put_some(alloc, delay, len, stays)?;
                Ok(verdict)
            }
        }
    }

    /// Carries an entry on.
    pub fn carry(
        &mut self,
        alloc: Global,
        m: &Machine,
        code: &Code,
        place: usize,
    ) -> Result<Option<Verdict>, AllocError>
        requires { CanCarry m.now code.now place self.old }
        ensures { IfOk result (λ r. Carried m.now code.now place self.old self.new r) }
    {
        let Some(at) = entry_at(&self.entries, place) else {
            return Ok(None);
        };
        let words = code.words.as_slice();
        match visit(alloc, m, word_at(words, at.point.address as usize), at)? {
            Outcome::Ends(verdict) => Ok(Some(verdict)),
            Outcome::Goes { acts, stays } => {
                let verdict = self.put_both(alloc, m.control.delay, words.len(), acts, stays)?;
                Ok(verdict)
            }
        }
    }
}
