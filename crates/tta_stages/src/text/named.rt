//! The blocks of code, with what each stands for.

ghost use Rattle.std.specs.Prelude.{◌≡◌, ◌++◌, OnOk};
ghost use Rattle.tta_stages.specs.RegisterText.{named_text};

use crate::text::register::push_part_at;
use crate::text::words::push_block;
use std::alloc::AllocError;
use tta_arch::Machine;
use tta_lower::Part;
use tta_program::Program;

/// What the lists and the code of blocks are told of: a machine, a program, and what the blocks of its
/// register code stand for.
#[derive(Drop)]
pub struct Of<'a> {
    pub m: &'a Machine,
    pub p: &'a Program,
    pub parts: &'a [Part],
}

/// Puts the name of a block of code, and what it stands for.
#[tactic(auto, unfolding(crate::specs::RegisterText::named_text))]
pub fn push_named(out: &mut Vec<u8>, of: &Of<'_>, k: usize) -> Result<(), AllocError>
    ensures { OnOk result (out.new.items ≡ out.old.items
        ++ named_text of.now.p.now of.now.parts.now k) }
{
    push_block(out, k as u128)?;
    push_part_at(out, of.p, of.parts, k)
}
