//! Numbers, constants and ranges, put at the end of a text.

ghost use Rattle.std.specs.Prelude.{◌≡◌, ◌++◌, codes, decimal, if◌then◌else◌, OnOk};
ghost use Rattle.tta_verilog.specs.Expressions.{constant, part};
ghost use Rattle.tta_verilog.specs.Circuits.{range};

use itoa::Buffer;
use std::alloc::AllocError;

/// Puts bytes.
pub fn push_text(out: &mut Vec<u8>, text: &[u8]) -> Result<(), AllocError>
    ensures { OnOk result (out.new.items ≡ out.old.items ++ text.now) }
{
    out.extend_from_slice(text)
}

/// Puts a number, in decimal.
pub fn push_number(out: &mut Vec<u8>, n: u64) -> Result<(), AllocError>
    ensures { OnOk result (out.new.items ≡ out.old.items ++ decimal n) }
{
    let mut buffer = Buffer::new();
    out.extend_from_slice(buffer.format(n).as_bytes())
}

/// Puts a constant of so many bits.
#[tactic(auto, unfolding(crate::specs::Expressions::constant))]
pub fn push_constant(out: &mut Vec<u8>, width: u32, word: u64) -> Result<(), AllocError>
    ensures { OnOk result (out.new.items ≡ out.old.items ++ constant width word) }
{
    push_number(out, u64::from(width))?;
    push_text(out, b"'d")?;
    push_number(out, word)
}

/// Puts the range of a name of so many bits, and a blank.
#[tactic(auto, unfolding(crate::specs::Circuits::range))]
pub fn push_range(out: &mut Vec<u8>, width: u32) -> Result<(), AllocError>
    ensures { OnOk result (out.new.items ≡ out.old.items ++ range width) }
{
    push_text(out, b"[")?;
    push_number(out, u64::from(width.saturating_sub(1)))?;
    push_text(out, b":0] ")
}

/// Puts which bits of a name are taken: so many of them, from a bit on.
pub fn push_part_select(out: &mut Vec<u8>, low: u32, width: u32) -> Result<(), AllocError>
    ensures { OnOk result (out.new.items ≡ out.old.items
        ++ (codes "[" ++ (decimal low ++ (codes "+:" ++ (decimal width ++ codes "]"))))) }
{
    push_text(out, b"[")?;
    push_number(out, u64::from(low))?;
    push_text(out, b"+:")?;
    push_number(out, u64::from(width))?;
    push_text(out, b"]")
}

/// Puts a part of what has a name.
#[tactic(auto, unfolding(crate::specs::Expressions::part))]
pub fn push_part_of(out: &mut Vec<u8>, name: &[u8], low: u32, width: u32) -> Result<(), AllocError>
    ensures { OnOk result (out.new.items ≡ out.old.items ++ part name.now low width) }
{
    push_text(out, name)?;
    push_part_select(out, low, width)
}

/// Puts a bit.
pub fn push_bit(out: &mut Vec<u8>, bit: bool) -> Result<(), AllocError>
    ensures { OnOk result
        (out.new.items ≡ out.old.items ++ (if bit then codes "1" else codes "0")) }
{
    if bit {
        push_text(out, b"1")
    } else {
        push_text(out, b"0")
    }
}
