//! What is counted.

ghost use Rattle.std.specs.Prelude.{◌≡◌, ◌+◌, ◌*◌, ◌<◌, ◌≤◌, ◌^◌, ◌==◌, ◌&&◌, ℕ, length, replicate};
ghost use Rattle.std.specs.Prelude.{if◌then◌else◌, slice_index, IfOk};
ghost use Rattle.tta_arch.specs.Joins.{has_bit};
ghost use Rattle.tta_profile.specs.Counts.{most_buses};

use std::alloc::{AllocError, Global};
use std::marker::Model;
use tta_arch::has_bus;

/// How many buses an instruction can have.
const BUSES: usize = 16;

/// Of each instruction how often it was carried out, and of each of its moves how often it was passed
/// over by its guard. A move has its bus's number. And of each instruction how often it accessed the
/// data space, and the frame, at an address outside.
#[derive(Drop)]
pub struct Counts {
    executed: Vec<u64>,
    /// `BUSES` for each instruction.
    passed: Vec<u64>,
    outside_data: Vec<u64>,
    outside_frame: Vec<u64>,
}

impl Model for Counts {
    ghost use Rattle.tta_profile.specs.Counts.{Counts};

    ghost Value = { Counts };

    ghost view = { λ c. record {
      executed = c.executed.items;
      passed = c.passed.items;
      outside_data = c.outside_data.items;
      outside_frame = c.outside_frame.items;
    } };
}

/// So many counts of 0.
fn zeros(alloc: Global, count: usize) -> Result<Vec<u64>, AllocError>
    ensures { IfOk result (λ v. v.items ≡ replicate count 0) }
{
    let zeros = vec![in alloc; 0; count]?;
    Ok(zeros)
}

/// Counts one more at a place, unless the count is at its greatest.
fn add_one(counts: &mut Vec<u64>, place: usize)
    requires within { place < length counts.old.items }
    ensures one { slice_index counts.old.items place < 2 ^ 63
        → (k : ℕ) → slice_index counts.new.items k
        ≡ slice_index counts.old.items k + (if k == place then 1 else 0) }
    ensures size { length counts.new.items ≡ length counts.old.items }
{
    counts[place] = counts[place].saturating_add(1);
}

/// Counts one more at a place, where something holds.
fn add_if(counts: &mut Vec<u64>, place: usize, test: bool)
    requires within { place < length counts.old.items }
    ensures one { slice_index counts.old.items place < 2 ^ 63
        → (k : ℕ) → slice_index counts.new.items k
        ≡ slice_index counts.old.items k + (if k == place && test then 1 else 0) }
    ensures size { length counts.new.items ≡ length counts.old.items }
{
    if test {
        add_one(counts, place);
    }
}

/// Counts one more for each bus of a set, at the places of an instruction.
fn add_buses(counts: &mut Vec<u64>, address: usize, stopped: u16)
    requires within { most_buses * address + most_buses ≤ length counts.old.items }
    ensures ones { ((bus : ℕ) → bus < most_buses
        → slice_index counts.old.items (most_buses * address + bus) < 2 ^ 63)
        → (a bus : ℕ) → bus < most_buses → slice_index counts.new.items (most_buses * a + bus)
        ≡ slice_index counts.old.items (most_buses * a + bus)
        + (if a == address && has_bit stopped bus then 1 else 0) }
    ensures size { length counts.new.items ≡ length counts.old.items }
{
    for bus in 0..BUSES {
        add_if(counts, BUSES * address + bus, has_bus(stopped, bus));
    }
}

/// The same where there may be none, as in most cycles.
fn add_some(counts: &mut Vec<u64>, address: usize, stopped: u16)
    requires within { most_buses * address + most_buses ≤ length counts.old.items }
    ensures ones { ((bus : ℕ) → bus < most_buses
        → slice_index counts.old.items (most_buses * address + bus) < 2 ^ 63)
        → (a bus : ℕ) → bus < most_buses → slice_index counts.new.items (most_buses * a + bus)
        ≡ slice_index counts.old.items (most_buses * a + bus)
        + (if a == address && has_bit stopped bus then 1 else 0) }
    ensures size { length counts.new.items ≡ length counts.old.items }
{
    if stopped != 0 {
        add_buses(counts, address, stopped);
    }
}

/// An entry of a row, 0 past its end.
fn entry(row: &[u64], place: usize) -> u64
    ensures { result ≡ slice_index row.now place }
{
    match row.get(place) {
        None => 0,
        Some(n) => *n,
    }
}

impl Counts {
    ghost use Rattle.tta_profile.specs.Counts.{most_buses};
    ghost use Rattle.tta_profile.specs.Report.{active, outside_of};
    ghost use Rattle.std.specs.Prelude.{◌≡◌, ◌+◌, ◌*◌, ◌<◌, ◌≤◌, ◌^◌, ◌==◌, ◌&&◌, ℕ, length};
    ghost use Rattle.std.specs.Prelude.{if◌then◌else◌, replicate, slice_index, IfOk};
    ghost use Rattle.tta_arch.specs.Joins.{has_bit};

    /// No counts of so many instructions.
    pub fn new(alloc: Global, words: usize) -> Result<Counts, AllocError>
        requires few { words ≤ 65536 }
        ensures executed { IfOk result (λ c. c.executed ≡ replicate words 0) }
        ensures passed { IfOk result (λ c. c.passed ≡ replicate (most_buses * words) 0) }
        ensures outside_data { IfOk result (λ c. c.outside_data ≡ replicate words 0) }
        ensures outside_frame { IfOk result (λ c. c.outside_frame ≡ replicate words 0) }
    {
        let executed = zeros(alloc, words)?;
        let passed = zeros(alloc, BUSES * words)?;
        let outside_data = zeros(alloc, words)?;
        let outside_frame = zeros(alloc, words)?;
        Ok(Counts {
            executed,
            passed,
            outside_data,
            outside_frame,
        })
    }

    /// How often each instruction was carried out.
    pub fn executed(&self) -> &[u64]
        ensures { result.now ≡ self.now.executed }
    {
        self.executed.as_slice()
    }

    /// How often the instruction of an address was carried out, 0 where there is none.
    pub fn times(&self, address: u32) -> u64
        ensures { result ≡ slice_index self.now.executed address }
    {
        entry(self.executed.as_slice(), address as usize)
    }

    /// How often the move of a bus was passed over in the instruction of an address.
    pub fn passed(&self, address: usize, bus: usize) -> u64
        requires low { bus < most_buses }
        requires few { address < 65536 }
        ensures { result ≡ slice_index self.now.passed (most_buses * address + bus) }
    {
        entry(self.passed.as_slice(), BUSES * address + bus)
    }

    /// How often it was active.
    pub fn active(&self, address: usize, bus: usize) -> u64
        requires low { bus < most_buses }
        requires few { address < 65536 }
        ensures { result ≡ active self.now address bus }
    {
        entry(self.executed.as_slice(), address).saturating_sub(self.passed(address, bus))
    }

    /// How often each instruction accessed the data space at an address outside.
    pub fn outside_data(&self) -> &[u64]
        ensures { result.now ≡ self.now.outside_data }
    {
        self.outside_data.as_slice()
    }

    /// How often each instruction accessed the frame at an address outside.
    pub fn outside_frame(&self) -> &[u64]
        ensures { result.now ≡ self.now.outside_frame }
    {
        self.outside_frame.as_slice()
    }

    /// How often the instruction of an address accessed the spaces at addresses outside.
    pub fn outside(&self, address: u32) -> u128
        ensures { result ≡ outside_of self.now address }
    {
        let data = entry(self.outside_data.as_slice(), address as usize);
        let frame = entry(self.outside_frame.as_slice(), address as usize);
        u128::from(data) + u128::from(frame)
    }

    /// Counts that the instruction of an address accessed the data space, and the frame, at an address
    /// outside, or did not. It does nothing where there is no such instruction.
    pub fn add_outside(&mut self, address: usize, of_data: bool, of_frame: bool)
        requires room_data { length self.old.outside_data ≡ length self.old.executed }
        requires room_frame { length self.old.outside_frame ≡ length self.old.executed }
        ensures executed { self.new.executed ≡ self.old.executed }
        ensures passed { self.new.passed ≡ self.old.passed }
        ensures of_data { address < length self.old.executed
            → slice_index self.old.outside_data address < 2 ^ 63
            → (k : ℕ) → slice_index self.new.outside_data k
            ≡ slice_index self.old.outside_data k + (if k == address && of_data then 1 else 0) }
        ensures of_frame { address < length self.old.executed
            → slice_index self.old.outside_frame address < 2 ^ 63
            → (k : ℕ) → slice_index self.new.outside_frame k
            ≡ slice_index self.old.outside_frame k + (if k == address && of_frame then 1 else 0) }
        ensures size_data { length self.new.outside_data ≡ length self.old.outside_data }
        ensures size_frame { length self.new.outside_frame ≡ length self.old.outside_frame }
    {
        if address >= self.executed.len() {
            return;
        }
        add_if(&mut self.outside_data, address, of_data);
        add_if(&mut self.outside_frame, address, of_frame);
    }

    /// Counts that the instruction of an address was carried out, and that guards stopped the moves of
    /// some buses. It does nothing where there is no such instruction.
    pub fn add(&mut self, address: usize, stopped: u16)
        requires room { length self.old.passed ≡ most_buses * length self.old.executed }
        ensures executed { address < length self.old.executed
            → slice_index self.old.executed address < 2 ^ 63
            → (k : ℕ) → slice_index self.new.executed k
            ≡ slice_index self.old.executed k + (if k == address then 1 else 0) }
        ensures passed { address < length self.old.executed
            → ((bus : ℕ) → bus < most_buses
            → slice_index self.old.passed (most_buses * address + bus) < 2 ^ 63)
            → (a bus : ℕ) → bus < most_buses → slice_index self.new.passed (most_buses * a + bus)
            ≡ slice_index self.old.passed (most_buses * a + bus)
            + (if a == address && has_bit stopped bus then 1 else 0) }
        ensures size { length self.new.executed ≡ length self.old.executed }
        ensures size_passed { length self.new.passed ≡ length self.old.passed }
        ensures outside_data { self.new.outside_data ≡ self.old.outside_data }
        ensures outside_frame { self.new.outside_frame ≡ self.old.outside_frame }
    {
        if address >= self.executed.len() {
            return;
        }
        add_one(&mut self.executed, address);
        add_some(&mut self.passed, address, stopped);
    }
}
