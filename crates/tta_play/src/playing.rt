//! The page of a run.

ghost use Rattle.std.specs.Prelude.{◌≡◌, ◌+◌, ◌<◌, ◌≤◌, ◌^◌, ◌++◌, None, length, IfOk, OnOk};
ghost use Rattle.tta_ops.specs.Set.{stated};
ghost use Rattle.tta_list.specs.Iterate.{iterate};
ghost use Rattle.tta_code.specs.Cycle.{State, next as next_state};
ghost use Rattle.tta_sim.specs.Held.{Stands, IsRunOf};
ghost use Rattle.tta_play.specs.Statement.{front_text, limited, page_after, page_of, played_text};
ghost use Rattle.tta_play.specs.Statement.{room_after};
ghost use Rattle.tta_pages.specs.Room.{within};
ghost use Rattle.tta_play.specs.Controls.{Follows};
ghost use Rattle.tta_play.specs.Steps.{AreSpacesOf};

use crate::cycling::{Beside, Extent, push_states};
use crate::listing::push_code_part;
use crate::memory::{Spaces, push_earlier, remember};
use crate::skipping::skip;
use std::alloc::{AllocError, Global};
use tta_pages::{push_run_head, push_run_middle, push_run_tail};
use tta_profile::Basis;
use tta_sim::Sim;

/// How many cycles a page plays at most, so that it stays small.
const MOST_CYCLES: u64 = 400;

/// How many bytes stand before the end of a page at most, so that it has no more than 8 MiB.
const STATES_END: usize = 8_323_072;

/// How many cycles a page plays where so many are asked for.
fn limited(bound: u64) -> u64
    ensures is { result ≡ limited bound }
    ensures within { result ≤ bound }
{
    if bound < MOST_CYCLES {
        bound
    } else {
        MOST_CYCLES
    }
}

/// How many bytes a page tells of the stages of a program at most, so that it stays small.
const MOST_STAGES: usize = 4_194_304;

/// How many bytes it tells of origins at most.
const MOST_ORIGINS: usize = 524_288;

/// A text, or nothing where it is longer.
fn within(room: usize, text: &[u8]) -> &[u8]
    ensures { result.now ≡ within room text.now }
{
    if text.len() > room { b"" } else { text }
}

/// What a page tells of a program: its stages, and which lines and variables belong to which block of the
/// code. Both are empty for code without a program.
#[derive(Clone, Copy)]
pub struct ProgramTexts<'a> {
    pub stages: &'a [u8],
    pub origins: &'a [u8],
}

/// Which cycles of a run a page plays.
#[derive(Clone, Copy)]
pub struct Span {
    /// How many cycles are made before.
    pub first: u64,
    /// How many it plays at most.
    pub bound: u64,
}

/// How much there is room for behind what stands on a page.
fn room_after(out: &[u8]) -> usize
    ensures { result ≡ room_after (length out.now) }
{
    STATES_END.saturating_sub(out.len())
}

/// Puts what the cycles before changed in the spaces, whose words `beside` keeps as a state had them, and
/// the states of at most so many cycles.
#[tactic(auto, unfolding(crate::specs::Statement::played_text))]
fn push_played(
    out: &mut Vec<u8>,
    beside: &mut Beside,
    sim: &mut Sim,
    basis: &Basis<'_>,
    input: &[u32],
    bound: u64,
) -> Result<(), AllocError>
    requires loaded { IsRunOf basis.now.m.now basis.now.code.now sim.old }
    requires few { sim.old.cycle + bound < 2 ^ 62 }
    ensures { let on = basis.now in let U = stated unit_meaning on.units.now in
        let before = out.old.items in
        let kept = beside.old.spaces in
        (begin s : State) → AreSpacesOf begin kept.memory.items kept.frame.items
        → Follows sim.old beside.old.under_way s → s.rest ≡ input.now → OnOk result (out.new.items
        ≡ before ++ played_text U on.m.now on.code.now (length before) begin s bound) }
{
    push_earlier(out, &beside.spaces, &*sim)?;
    let most = Extent {
        cycles: limited(bound),
        room: room_after(out.as_slice()),
    };
    push_states(out, beside, sim, basis, input, most)
}

/// Puts the part of the states of a run.
fn push_run(
    out: &mut Vec<u8>,
    beside: &mut Beside,
    sim: &mut Sim,
    basis: &Basis<'_>,
    input: &[u32],
    span: Span,
) -> Result<(), AllocError>
    requires loaded { IsRunOf basis.now.m.now basis.now.code.now sim.old }
    requires few { sim.old.cycle + span.first + span.bound < 2 ^ 62 }
    ensures { let on = basis.now in let U = stated unit_meaning on.units.now in
        let before = out.old.items in
        (s : State) → Follows sim.old beside.old.under_way s → s.rest ≡ input.now
        → OnOk result (out.new.items ≡ before ++ played_text U on.m.now on.code.now (length before) s
        (iterate span.first (next_state U on.m.now on.code.now) s) span.bound) }
{
    remember(&mut beside.spaces, &*sim)?;
    let rest = skip(sim, &mut beside.under_way, basis, input, span.first);
    push_played(out, beside, sim, basis, rest, span.bound)
}

/// Puts what stands before the states: what is told of the program, and the machine with its code.
#[tactic(auto, unfolding(crate::specs::Statement::front_text))]
fn push_front(
    out: &mut Vec<u8>,
    basis: &Basis<'_>,
    told: &ProgramTexts<'_>,
    span: Span,
) -> Result<(), AllocError>
    ensures { let on = basis.now in let U = stated unit_meaning on.units.now in
        OnOk result (out.new.items ≡ out.old.items
        ++ front_text U on.m.now on.code.now.words told.now.stages.now told.now.origins.now
        span.first span.bound) }
{
    push_run_head(out)?;
    out.extend_from_slice(within(MOST_STAGES, told.stages))?;
    push_run_middle(out)?;
    push_code_part(out, basis, span)?;
    out.extend_from_slice(within(MOST_ORIGINS, told.origins))
}

/// Carries out cycles of a run, and gives the page that plays them: one file of HTML, which holds what is
/// told of the program, the machine's code and each state, and needs nothing else. It plays no more than
/// 400 cycles, whatever is asked for, and has no more than 8 MiB. Nothing is said of the page of a run that
/// begins while a control move is under way; at its start none is. It fails only where there is no memory.
#[tactic(auto, unfolding(crate::specs::Statement::page_after))]
pub fn play_after(
    alloc: Global,
    basis: &Basis<'_>,
    told: &ProgramTexts<'_>,
    sim: &mut Sim,
    input: &[u32],
    span: Span,
) -> Result<Vec<u8>, AllocError>
    requires loaded { IsRunOf basis.now.m.now basis.now.code.now sim.old }
    requires few { sim.old.cycle + span.first + span.bound < 2 ^ 62 }
    ensures { let on = basis.now in let U = stated unit_meaning on.units.now in
        (s : State) → Stands sim.old s → s.pending ≡ None → s.rest ≡ input.now → IfOk result
        (λ v. v.items ≡ page_after U on.m.now on.code.now told.now.stages.now told.now.origins.now
        s span.first span.bound) }
{
    let mut out = Vec::new(alloc);
    let mut beside = Beside {
        spaces: Spaces {
            memory: Vec::new(alloc),
            frame: Vec::new(alloc),
        },
        under_way: None,
    };
    push_front(&mut out, basis, told, span)?;
    push_run(&mut out, &mut beside, sim, basis, input, span)?;
    push_run_tail(&mut out)?;
    Ok(out)
}

/// Carries out at most so many cycles of a run, and gives the page that plays them, as `play_after` does.
pub fn play(
    alloc: Global,
    basis: &Basis<'_>,
    told: &ProgramTexts<'_>,
    sim: &mut Sim,
    input: &[u32],
    bound: u64,
) -> Result<Vec<u8>, AllocError>
    requires loaded { IsRunOf basis.now.m.now basis.now.code.now sim.old }
    requires few { sim.old.cycle + bound < 2 ^ 62 }
    ensures { let on = basis.now in let U = stated unit_meaning on.units.now in
        (s : State) → Stands sim.old s → s.pending ≡ None → s.rest ≡ input.now → IfOk result
        (λ v. v.items ≡ page_of U on.m.now on.code.now told.now.stages.now told.now.origins.now
        s bound) }
{
    play_after(alloc, basis, told, sim, input, Span { first: 0, bound })
}
