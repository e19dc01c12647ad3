//! All that is told.

ghost use Rattle.std.specs.Prelude.{◌≡◌, ◌++◌, IfOk, OnOk};
ghost use Rattle.tta_ops.specs.Set.{stated};
ghost use Rattle.tta_program.specs.Over.{StandsOver};
ghost use Rattle.tta_stages.specs.Stages.{AreStages};
ghost use Rattle.tta_stages.specs.Text.{kind_text, homes_in, told_text, stages_text};

use crate::stages::Stages;
use crate::starts::block_starts;
use crate::text::lists::push_lists;
use crate::text::named::Of;
use crate::text::placed::push_blocks;
use crate::text::program::push_program;
use crate::text::register::{Ranges, push_register};
use crate::text::steps::On;
use crate::text::variables::push_variables;
use std::alloc::{AllocError, Global};
use tta_arch::Machine;
use tta_connect::Choice;
use tta_ops::UnitSet;
use tta_program::Program;

/// The registers of the machine that are home registers.
fn homes_in(choice: &Option<Choice>) -> &[(u8, u8)]
    ensures { result.now ≡ homes_in choice.now }
{
    match choice {
        Some(c) => c.homes.as_slice(),
        None => &[],
    }
}

/// Puts whether the pair is a direct one.
fn push_kind(out: &mut Vec<u8>, choice: &Option<Choice>) -> Result<(), AllocError>
    ensures { OnOk result (out.new.items ≡ out.old.items ++ kind_text choice.now) }
{
    match choice {
        Some(_) => out.extend_from_slice(b"pair covered\n"),
        None => out.extend_from_slice(b"pair direct\n"),
    }
}

/// Puts all that is told, where the code of the blocks begins at these addresses.
#[tactic(auto, unfolding(crate::specs::Text::told_text))]
fn push_told(
    out: &mut Vec<u8>,
    m: &Machine,
    p: &Program,
    units: &UnitSet,
    s: &Stages,
    starts: &[u32],
) -> Result<(), AllocError>
    requires { StandsOver (stated unit_meaning units.now) p.now }
    ensures { OnOk result (out.new.items ≡ out.old.items
        ++ told_text (stated unit_meaning units.now) m.now p.now s.now starts.now) }
{
    let on = On {
        m,
        homes: homes_in(&s.choice),
    };
    let placed = s.planned.placed.as_slice();
    let ranges = Ranges { p, starts, placed };
    let lowered = &s.lowered;
    let parts = lowered.parts.as_slice();
    let of = Of { m, p, parts };
    push_kind(out, &s.choice)?;
    push_program(out, units, p, &lowered.live, lowered.flow.blocks.as_slice())?;
    push_variables(out, &on, p, lowered)?;
    push_register(
        out,
        units,
        &on,
        &ranges,
        lowered.code.blocks.as_slice(),
        parts,
    )?;
    let trails = s.planned.trails.as_slice();
    push_lists(out, units, &of, trails, s.planned.selected.as_slice())?;
    push_blocks(out, units, &of, s.code.words.as_slice(), starts, placed)
}

/// What is told of the stages of a program on the way to code for a machine, as text: its blocks, the
/// homes and intervals of its variables, its register code, the lists of each block from the selected
/// one to the one that is placed, and the code, a heading before each part. It fails only where there
/// is no memory.
pub fn tell_stages(
    alloc: Global,
    m: &Machine,
    p: &Program,
    units: &UnitSet,
    stages: &Stages,
) -> Result<Vec<u8>, AllocError>
    requires program { StandsOver (stated unit_meaning units.now) p.now }
    requires stages { AreStages (stated unit_meaning units.now) m.now p.now stages.now }
    ensures { IfOk result (λ v.
        v.items ≡ stages_text (stated unit_meaning units.now) m.now p.now stages.now) }
{
    m.rules();
    let starts = block_starts(alloc, stages.planned.placed.as_slice())?;
    let mut out = Vec::new(alloc);
    push_told(&mut out, m, p, units, stages, starts.as_slice())?;
    Ok(out)
}
