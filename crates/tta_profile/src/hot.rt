//! The instructions that were carried out, the hottest first.

ghost use Rattle.std.specs.Prelude.{◌≡◌, ◌≤◌, ◌<◌, ◌-◌, ◌^◌, length, IfOk, OnOk, IsPermutation};
ghost use Rattle.std.specs.List.Sorted.{IsNonDecreasingBy};
ghost use Rattle.tta_profile.specs.Report.{IsHottestFirst, all_hot, hot_if};

use crate::counts::Counts;
use std::alloc::{AllocError, Global};

/// An instruction by its address, and how often it was carried out.
#[derive(Clone, Copy)]
pub struct Hot {
    pub address: u32,
    pub times: u64,
}

/// An instruction, if it was carried out.
fn hot_if(address: u32, times: u64) -> Option<Hot>
    ensures { result ≡ hot_if address times }
{
    if 0 < times {
        Some(Hot { address, times })
    } else {
        None
    }
}

/// Those that were carried out, by their addresses.
fn all_hot(alloc: Global, counts: &Counts) -> Result<Vec<Hot>, AllocError>
    requires { length counts.now.executed ≤ 65536 }
    ensures { IfOk result (λ v. v.items ≡ all_hot counts.now) }
{
    let mut hot = Vec::new(alloc);
    for (address, times) in counts.executed().iter().enumerate() {
        if let Some(h) = hot_if(address as u32, *times) {
            hot.push(h)?;
        }
    }
    Ok(hot)
}

/// Puts them into an order in which their counts fall.
fn sort(hot: &mut Vec<Hot>) -> Result<(), AllocError>
    ensures permutation { OnOk result (IsPermutation hot.old.items hot.new.items) }
    ensures falls { OnOk result
        (IsNonDecreasingBy (λ (h : Hot). 2 ^ 64 - 1 - h.times) hot.new.items) }
{
    hot.sort_by_key(|h| u64::MAX - h.times)?;
    Ok(())
}

/// Those that were carried out, the hottest first.
pub fn hottest(alloc: Global, counts: &Counts) -> Result<Vec<Hot>, AllocError>
    requires { length counts.now.executed ≤ 65536 }
    ensures { IfOk result (λ v. IsHottestFirst counts.now v.items) }
{
    let mut hot = all_hot(alloc, counts)?;
    sort(&mut hot)?;
    Ok(hot)
}
