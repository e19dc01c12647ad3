//! Sums over the moves of code.

ghost use Rattle.std.specs.Prelude.{◌≡◌, ◌≤◌, ◌<◌, ◌*◌, ◌^◌, length, All};
ghost use Rattle.std.specs.List.{sum_by};
ghost use Rattle.tta_profile.specs.Counts.{most_buses};
ghost use Rattle.tta_profile.specs.Report.{active, code_sum, cycles_sum, instruction_sum, is_asked};
ghost use Rattle.tta_profile.specs.Report.{slot_sum, starts};

use crate::counts::Counts;
use tta_arch::Dest;
use tta_code::{Instruction, Move};

/// Which moves are asked for.
#[derive(Clone, Copy)]
pub enum Test {
    /// Those of a bus.
    Bus(u8),
    /// Those that start an operation of a unit.
    Unit(u8),
}

/// Whether a destination starts an operation of a unit.
fn starts(unit: u8, dst: Dest) -> bool
    ensures { result ≡ starts unit dst }
{
    match dst {
        Dest::Trigger { unit: other, .. } => other == unit,
        _ => false,
    }
}

/// Whether a move of a bus is asked for.
fn is_asked(test: Test, bus: usize, v: Move) -> bool
    ensures { result ≡ is_asked test bus v }
{
    match test {
        Test::Bus(asked) => bus == usize::from(asked),
        Test::Unit(unit) => starts(unit, v.dst),
    }
}

/// How often the move of a slot was active, if it is asked for.
fn slot_sum(counts: &Counts, test: Test, address: usize, bus: usize, slot: Option<Move>) -> u64
    requires low { bus < most_buses }
    requires few { address < 65536 }
    ensures { result ≡ slot_sum counts.now test address bus slot }
{
    let Some(v) = slot else {
        return 0;
    };
    if is_asked(test, bus, v) {
        counts.active(address, bus)
    } else {
        0
    }
}

/// The sum of those of an instruction.
fn instruction_sum(counts: &Counts, test: Test, address: usize, slots: &[Option<Move>]) -> u128
    requires low { length slots.now ≤ most_buses }
    requires few { address < 65536 }
    ensures value { result ≡ instruction_sum counts.now test address slots.now }
    ensures small { result ≤ 2 ^ 68 }
{
    let mut sum = 0;
    for (bus, slot) in slots.iter().enumerate() {
        sum += u128::from(slot_sum(counts, test, address, bus, *slot));
    }
    sum
}

/// The sum of those of code.
pub fn code_sum(counts: &Counts, test: Test, words: &[Instruction]) -> u128
    requires few { length words.now ≤ 65536 }
    requires low { All (λ i. length i.moves ≤ most_buses) words.now }
    ensures value { result ≡ code_sum counts.now test words.now }
    ensures small { result ≤ 2 ^ 84 }
{
    let mut sum = 0;
    for (address, i) in words.iter().enumerate() {
        sum += instruction_sum(counts, test, address, i.moves.as_slice());
    }
    sum
}

/// The sum of counts.
pub fn total(counts: &[u64]) -> u128
    ensures { result ≡ sum_by (λ n. n) counts.now }
{
    let mut sum = 0;
    for n in counts {
        sum += u128::from(*n);
    }
    sum
}

/// How many cycles were made.
pub fn cycles_sum(executed: &[u64]) -> u128
    requires few { length executed.now ≤ 65536 }
    ensures value { result ≡ sum_by (λ n. n) executed.now }
    ensures small { result ≤ 2 ^ 80 }
{
    let mut sum = 0;
    for n in executed {
        sum += u128::from(*n);
    }
    sum
}
