//! Where the words of code stand, and the memory that a file fills.

ghost use Rattle.std.specs.Prelude.{◌≡◌, ◌^◌, ◌<◌, ◌++◌, OnOk};
ghost use Rattle.tta_rtl.specs.CodeFile.{filed_function, filed_text};

use crate::on::On;
use std::alloc::AllocError;
use tta_verilog::{push_number, push_range, push_text};

/// Where the words of code stand.
#[derive(Clone, Copy)]
pub enum Rom {
    /// In the text, as a `case`.
    Text,
    /// In the file `code.hex` beside it.
    File,
}

/// Puts the function that reads the code's memory that a file fills.
#[tactic(auto, unfolding(crate::specs::CodeFile::filed_function))]
fn push_function(out: &mut Vec<u8>, width: u32) -> Result<(), AllocError>
    ensures { OnOk result (out.new.items ≡ out.old.items ++ filed_function width) }
{
    push_text(out, b"function ")?;
    push_range(out, width)?;
    push_text(out, b"code;\ninput ")?;
    push_range(out, 32)?;
    push_text(out, b"at;\ncode = code_words[at];\nendfunction\n")
}

/// Puts the code's memory that a file fills, of so many words.
#[tactic(auto, unfolding(crate::specs::CodeFile::filed_text))]
fn push_array(out: &mut Vec<u8>, width: u32, size: u32) -> Result<(), AllocError>
    ensures { OnOk result (out.new.items ≡ out.old.items ++ filed_text width size) }
{
    push_text(out, b"reg ")?;
    push_range(out, width)?;
    push_text(out, b"code_words [0:")?;
    push_number(out, u64::from(size.saturating_sub(1)))?;
    push_text(out, b"];\ninitial $readmemh(\"code.hex\", code_words);\n")?;
    push_function(out, width)
}

/// Puts the code's memory that the file `code.hex` fills, with a word for each address.
pub fn push_filed(out: &mut Vec<u8>, on: &On<'_>) -> Result<(), AllocError>
    ensures { let M = on.now.m.now in OnOk result (out.new.items ≡ out.old.items
        ++ filed_text on.now.layout.now.width (2 ^ M.control.address)) }
{
    let m = on.m;
    push_array(out, on.layout.width, m.addresses())
}
