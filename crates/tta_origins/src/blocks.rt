//! The blocks of code, each with its lines and its variables.

ghost use Rattle.std.specs.Prelude.{◌≡◌, ◌++◌, map, OnOk};
ghost use Rattle.std.specs.List.{enumerate_from};
ghost use Rattle.tta_pages.specs.Room.{fitting};
ghost use Rattle.tta_stages.specs.RegisterText.{named_text};
ghost use Rattle.tta_origins.specs.Origins.{block_text, origin_text};

use crate::lines::push_lines;
use crate::variables::{Variables, push_lives};
use std::alloc::AllocError;
use tta_lower::Part;
use tta_moves::Placed;
use tta_pages::fit;
use tta_stages::{push_block as push_name, push_part_at, push_range_at};

/// How many bytes are told of blocks at most.
const MOST_BYTES: usize = 524_288;

/// Where the code of each block begins, and its placement.
#[derive(Clone, Copy)]
pub struct Ranges<'a> {
    pub starts: &'a [u32],
    pub placed: &'a [Placed],
}

/// Puts a block of code: its name, what it stands for, where its code begins and how many cycles that takes.
#[tactic(auto, unfolding(crate::specs::Origins::block_text, tta_stages::specs::RegisterText::named_text))]
fn push_block(
    out: &mut Vec<u8>,
    of: &Variables<'_>,
    ranges: &Ranges<'_>,
    k: usize,
) -> Result<(), AllocError>
    ensures { OnOk result (out.new.items ≡ out.old.items
        ++ block_text of.now.m.now of.now.homes.now of.now.p.now of.now.lowered.now
        ranges.now.starts.now ranges.now.placed.now k) }
{
    out.extend_from_slice(b"block ")?;
    push_name(out, k as u128)?;
    push_part_at(out, of.p, of.lowered.parts.as_slice(), k)?;
    push_range_at(out, ranges.starts, ranges.placed, k)?;
    out.extend_from_slice(b"\n")
}

/// Puts a block of code with its lines and its variables.
#[tactic(auto, unfolding(crate::specs::Origins::origin_text))]
fn push_origin(
    out: &mut Vec<u8>,
    of: &Variables<'_>,
    ranges: &Ranges<'_>,
    k: usize,
    part: Part,
) -> Result<(), AllocError>
    ensures { OnOk result (out.new.items ≡ out.old.items
        ++ origin_text of.now.m.now of.now.homes.now of.now.p.now of.now.lowered.now
        ranges.now.starts.now ranges.now.placed.now k part) }
{
    push_block(out, of, ranges, k)?;
    push_lines(out, of.p, part)?;
    push_lives(out, of, part)
}

/// Puts the blocks of code, as many of them as there is room for.
pub fn push_origins(
    out: &mut Vec<u8>,
    of: &Variables<'_>,
    ranges: &Ranges<'_>,
    parts: &[Part],
) -> Result<(), AllocError>
    ensures { let text = origin_text of.now.m.now of.now.homes.now of.now.p.now
        of.now.lowered.now ranges.now.starts.now ranges.now.placed.now in
        OnOk result (out.new.items ≡ out.old.items
        ++ fitting 524288 (map (λ x. text x.0 x.1) (enumerate_from 0 parts.now))) }
{
    let mut room = MOST_BYTES;
    for (k, part) in parts.iter().enumerate() {
        let from = out.len();
        push_origin(out, of, ranges, k, *part)?;
        let Some(left) = fit(out, from, room) else {
            return Ok(());
        };
        room = left;
    }
    Ok(())
}
