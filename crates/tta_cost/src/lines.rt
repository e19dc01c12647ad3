//! What the lines are made of.

ghost use Rattle.std.specs.Prelude.{◌≡◌, ◌++◌, OnOk, codes, decimal};
ghost use Rattle.tta_cost.specs.CostText as t;

use itoa::Buffer;
use std::alloc::AllocError;

/// Puts a number, in decimal.
fn push_number(out: &mut Vec<u8>, n: u64) -> Result<(), AllocError>
    ensures { OnOk result (out.new.items ≡ out.old.items ++ decimal n) }
{
    let mut buffer = Buffer::new();
    out.extend_from_slice(buffer.format(n).as_bytes())
}

/// Puts a number, and what it counts before it.
#[tactic(auto, unfolding(crate::specs::CostText::count_text))]
pub fn push_count(out: &mut Vec<u8>, what: &[u8], n: u64) -> Result<(), AllocError>
    ensures { OnOk result (out.new.items ≡ out.old.items ++ t.count_text what.now n) }
{
    out.extend_from_slice(what)?;
    push_number(out, n)
}

/// Puts the end of a line.
pub fn end_line(out: &mut Vec<u8>) -> Result<(), AllocError>
    ensures { OnOk result (out.new.items ≡ out.old.items ++ codes "\n") }
{
    out.extend_from_slice(b"\n")
}

/// Puts a line of two numbers, and what each counts before it.
#[tactic(auto, unfolding(crate::specs::CostText::pair_text))]
pub fn push_pair(
    out: &mut Vec<u8>,
    what: &[u8],
    n: u64,
    other: &[u8],
    k: u64,
) -> Result<(), AllocError>
    ensures { OnOk result (out.new.items ≡ out.old.items ++ t.pair_text what.now n other.now k) }
{
    push_count(out, what, n)?;
    push_count(out, other, k)?;
    end_line(out)
}
