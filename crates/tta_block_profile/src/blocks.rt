//! The blocks of compiled code, and how many cycles were spent in each.

ghost use Rattle.std.specs.Prelude.{◌≡◌, ◌≤◌, ◌^◌, length, take, drop};
ghost use Rattle.tta_block_profile.specs.Spent.{block_sum, sum_of, sum_at};

use tta_lower::Part;
use tta_moves::Placed;
use tta_profile::{Counts, cycles_sum};
use tta_program::Program;

/// The blocks of the code of a program: what each stands for, the address where its code begins, and
/// its placement.
#[derive(Clone, Copy)]
pub struct Blocks<'a> {
    pub program: &'a Program,
    pub parts: &'a [Part],
    pub starts: &'a [u32],
    pub placed: &'a [Placed],
}

/// What was counted at so many addresses from one on.
fn counts_from(executed: &[u64], start: u32, cycles: u32) -> &[u64]
    ensures is { result.now ≡ take cycles (drop start executed.now) }
    ensures few { length result.now ≤ length executed.now }
{
    let first = (start as usize).min(executed.len());
    let rest = &executed[first..];
    let count = (cycles as usize).min(rest.len());
    &rest[..count]
}

/// How many cycles were spent at so many addresses from one on.
fn block_sum(counts: &Counts, start: u32, cycles: u32) -> u128
    requires few { length counts.now.executed ≤ 65536 }
    ensures value { result ≡ block_sum counts.now start cycles }
    ensures small { result ≤ 2 ^ 80 }
{
    cycles_sum(counts_from(counts.executed(), start, cycles))
}

/// How many cycles were spent in a block, by its number and its placement.
pub fn sum_of(counts: &Counts, starts: &[u32], k: usize, p: &Placed) -> u128
    requires few { length counts.now.executed ≤ 65536 }
    ensures value { result ≡ sum_of counts.now starts.now k p.now }
    ensures small { result ≤ 2 ^ 80 }
{
    match starts.get(k) {
        Some(start) => block_sum(counts, *start, p.length),
        None => 0,
    }
}

/// How many cycles were spent in the block of a number, none where there is no such block.
pub fn sum_at(counts: &Counts, blocks: &Blocks<'_>, k: usize) -> u128
    requires few { length counts.now.executed ≤ 65536 }
    ensures value { result ≡ sum_at counts.now blocks.now.starts.now blocks.now.placed.now k }
    ensures small { result ≤ 2 ^ 80 }
{
    match blocks.placed.get(k) {
        Some(p) => sum_of(counts, blocks.starts, k, p),
        None => 0,
    }
}
