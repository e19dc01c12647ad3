//! The blocks in which cycles were spent, the costliest first.

ghost use Rattle.std.specs.Prelude.{◌≡◌, ◌≤◌, ◌-◌, ◌^◌, length, IfOk, OnOk, IsPermutation};
ghost use Rattle.std.specs.List.Sorted.{IsNonDecreasingBy};
ghost use Rattle.tta_block_profile.specs.Spent.{spent_if, all_spent, IsCostliestFirst};

use crate::blocks::{Blocks, sum_of};
use std::alloc::{AllocError, Global};
use tta_profile::Counts;

/// A block of code by its number, and how many cycles were spent in it.
#[derive(Clone, Copy)]
pub struct Spent {
    pub block: usize,
    pub cycles: u128,
}

/// A block, if cycles were spent in it.
fn spent_if(block: usize, cycles: u128) -> Option<Spent>
    ensures { result ≡ spent_if block cycles }
{
    if 0 < cycles {
        Some(Spent { block, cycles })
    } else {
        None
    }
}

/// Those in which cycles were spent, in the order of the code.
fn all_spent(alloc: Global, counts: &Counts, blocks: &Blocks<'_>) -> Result<Vec<Spent>, AllocError>
    requires { length counts.now.executed ≤ 65536 }
    ensures { IfOk result (λ v. v.items
        ≡ all_spent counts.now blocks.now.starts.now blocks.now.placed.now) }
{
    let mut spent = Vec::new(alloc);
    for (k, p) in blocks.placed.iter().enumerate() {
        if let Some(s) = spent_if(k, sum_of(counts, blocks.starts, k, p)) {
            spent.push(s)?;
        }
    }
    Ok(spent)
}

/// Puts them into an order in which their cycles fall.
fn sort(spent: &mut Vec<Spent>) -> Result<(), AllocError>
    ensures permutation { OnOk result (IsPermutation spent.old.items spent.new.items) }
    ensures falls { OnOk result
        (IsNonDecreasingBy (λ (s : Spent). 2 ^ 128 - 1 - s.cycles) spent.new.items) }
{
    spent.sort_by_key(|s| u128::MAX - s.cycles)?;
    Ok(())
}

/// Those in which cycles were spent, the costliest first. It fails only where there is no memory.
pub fn costliest(
    alloc: Global,
    counts: &Counts,
    blocks: &Blocks<'_>,
) -> Result<Vec<Spent>, AllocError>
    requires { length counts.now.executed ≤ 65536 }
    ensures { IfOk result (λ v. IsCostliestFirst counts.now blocks.now.starts.now
        blocks.now.placed.now v.items) }
{
    let mut spent = all_spent(alloc, counts, blocks)?;
    sort(&mut spent)?;
    Ok(spent)
}
