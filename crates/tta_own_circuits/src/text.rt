//! The function of an operation, as it is put.

ghost use Rattle.std.specs.Prelude.{◌≡◌, ◌++◌, OnOk};
ghost use Rattle.tta_own_circuits.specs.Texts.{head_text, made_text};

use crate::unit::CircuitText;
use std::alloc::AllocError;
use tta_verilog::push_text;

/// Puts the lines of a function before what it makes. It is called by the name of its operation.
#[tactic(auto, unfolding(crate::specs::Texts::head_text))]
fn push_head(out: &mut Vec<u8>, name: &[u8]) -> Result<(), AllocError>
    ensures { OnOk result (out.new.items ≡ out.old.items ++ head_text name.now) }
{
    push_text(out, b"// ")?;
    push_text(out, name)?;
    push_text(out, b"\nfunction [31:0] own_")?;
    push_text(out, name)?;
    push_text(out, b";\ninput [31:0] a;\ninput [31:0] b;\n")
}

/// Puts what it makes of its two words.
#[tactic(auto, unfolding(crate::specs::Texts::made_text))]
fn push_made(out: &mut Vec<u8>, name: &[u8], text: CircuitText) -> Result<(), AllocError>
    ensures { OnOk result (out.new.items
        ≡ out.old.items ++ made_text name.now text.before.now text.word.now) }
{
    push_text(out, text.before)?;
    push_text(out, b"own_")?;
    push_text(out, name)?;
    push_text(out, b" = ")?;
    push_text(out, text.word)?;
    push_text(out, b";\nend\nendfunction\n")
}

/// Puts the function of an operation by its name and the text of its circuit.
pub fn write_function(out: &mut Vec<u8>, name: &[u8], text: CircuitText) -> Result<(), AllocError>
    ensures { OnOk result (out.new.items
        ≡ out.old.items ++ (head_text name.now ++ made_text name.now text.before.now text.word.now)) }
{
    push_head(out, name)?;
    push_made(out, name, text)
}
