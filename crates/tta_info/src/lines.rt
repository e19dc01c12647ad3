//! What the lines are made of, put at the end of a text.

ghost use Rattle.std.specs.Prelude.{◌≡◌, ◌++◌, codes, decimal, OnOk};
ghost use Rattle.tta_info.specs.Lines.{count_text, named_if, start_text};

use itoa::Buffer;
use std::alloc::AllocError;

/// Puts a number, in decimal.
pub fn push_number(out: &mut Vec<u8>, n: u64) -> Result<(), AllocError>
    ensures { OnOk result (out.new.items ≡ out.old.items ++ decimal n) }
{
    let mut buffer = Buffer::new();
    out.extend_from_slice(buffer.format(n).as_bytes())
}

/// Puts a number, and what it counts before it.
#[tactic(auto, unfolding(crate::specs::Lines::count_text))]
pub fn push_count(out: &mut Vec<u8>, what: &[u8], n: u64) -> Result<(), AllocError>
    ensures { OnOk result (out.new.items ≡ out.old.items ++ count_text what.now n) }
{
    out.extend_from_slice(what)?;
    push_number(out, n)
}

/// Puts a name and a port of it, where something holds.
pub fn push_named_if(
    out: &mut Vec<u8>,
    test: bool,
    name: &[u8],
    port: &[u8],
) -> Result<(), AllocError>
    ensures { OnOk result (out.new.items ≡ out.old.items ++ named_if test name.now port.now) }
{
    if !test {
        return Ok(());
    }
    out.extend_from_slice(b" ")?;
    out.extend_from_slice(name)?;
    out.extend_from_slice(port)
}

/// Puts how a line of a part begins: what it is, its name, and what is told.
#[tactic(auto, unfolding(crate::specs::Lines::start_text))]
pub fn start_line(
    out: &mut Vec<u8>,
    what: &[u8],
    name: &[u8],
    told: &[u8],
) -> Result<(), AllocError>
    ensures { OnOk result (out.new.items ≡ out.old.items ++ start_text what.now name.now told.now) }
{
    out.extend_from_slice(what)?;
    out.extend_from_slice(name)?;
    out.extend_from_slice(told)
}

/// Puts the end of a line.
pub fn end_line(out: &mut Vec<u8>) -> Result<(), AllocError>
    ensures { OnOk result (out.new.items ≡ out.old.items ++ codes "\n") }
{
    out.extend_from_slice(b"\n")
}
