//! Where the frames of a program lie in the frame space.

ghost use Rattle.std.specs.Prelude.{◌≡◌, ◌<◌, ◌≤◌, ◌+◌, ◌^◌, ◌++◌, ◌∷◌, [], IfOk, IfErr, OnOk};
ghost use Rattle.tta_lower.specs.Tables.{AreFirsts};
ghost use Rattle.tta_lower.specs.Layout.{own};
ghost use Rattle.tta_program.specs.Rules.{IsProgram};
ghost use Rattle.tta_program.specs.Sizes.{frame_need};
ghost use Rattle.tta_lower.specs.Statement.{IsCause};

use crate::error::LowerError;
use std::alloc::{AllocError, Global};
use tta_program::{Proc, Program};

/// The slots of a procedure's own.
fn own_slots(p: &Program, owner: u32) -> u32
    ensures { result ≡ own p.now owner }
{
    if owner == p.main { 0 } else { 2 }
}

/// For each procedure the slot of its first variable, and how many slots there are.
pub fn lay_frames(firsts: &mut Vec<u32>, p: &Program) -> Result<u32, AllocError>
    requires empty { firsts.old.items ≡ [] }
    ensures sound { OnOk result (IsProgram p.now) }
    ensures laid { OnOk result (AreFirsts p.now firsts.new.items) }
    ensures need { IfOk result (λ need. need ≡ frame_need p.now) }
{
    let procs = p.procs.as_slice();
    let mut next = 0;
    for o in 0..procs.len() {
        next = lay_frame(firsts, p, next, o as u32, &procs[o])?;
    }
    Ok(next)
}

/// One frame more.
fn lay_frame(
    firsts: &mut Vec<u32>,
    p: &Program,
    next: u32,
    owner: u32,
    q: &Proc,
) -> Result<u32, AllocError>
    requires room { next + own p.now owner + q.now.vars < 2 ^ 32 }
    ensures next { IfOk result (λ after. after ≡ next + own p.now owner + q.now.vars) }
    ensures first { OnOk result (firsts.new.items
        ≡ firsts.old.items ++ (next + own p.now owner) ∷ []) }
{
    let first = next + own_slots(p, owner);
    firsts.push(first)?;
    Ok(first + q.vars)
}

/// The first slots of all procedures, where the frames have room.
pub fn frames_within(alloc: Global, p: &Program, frame_words: u32) -> Result<Vec<u32>, LowerError>
    ensures sound { IfOk result (λ firsts. IsProgram p.now) }
    ensures laid { IfOk result (λ firsts. AreFirsts p.now firsts.items) }
    ensures room { IfOk result (λ firsts. frame_need p.now ≤ frame_words) }
    ensures cause { IfErr result (λ e. IsCause p.now frame_words e) }
{
    let mut firsts = Vec::new(alloc);
    let need = lay_frames(&mut firsts, p)?;
    if need > frame_words {
        return Err(LowerError::FrameFull {
            need,
            have: frame_words,
        });
    }
    Ok(firsts)
}
