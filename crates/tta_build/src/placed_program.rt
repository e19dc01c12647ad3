//! The placed lists of a program, with home registers given in either way; the shorter stays.

ghost use Rattle.std.specs.Prelude.{◌≡◌, ◌≤◌, ◌↔◌, if◌then◌else◌, nat_lt, true, length};
ghost use Rattle.std.specs.Prelude.{IsTrue, IfOk, IfErr, IfSome};
ghost use Rattle.std.specs.List.{sum_by};
ghost use Rattle.tta_ops.specs.Set.{stated};
ghost use Rattle.tta_arch.specs.Over.{StandsOver};
ghost use Rattle.tta_link.specs.Blocks.{most_blocks, total_length};
ghost use Rattle.tta_program.specs.Program.{step_count};
ghost use Rattle.tta_lower.specs.Statement.{IsCause};
ghost use Rattle.tta_compiler_laws.specs.Needs.{are_offered};
ghost use Rattle.tta_alloc.specs.Allotted.{SlotsAsScanned};
ghost use Rattle.tta_build.specs.RegisterOrder.{AreHomesBy};
ghost use Rattle.tta_build.specs.Lowered.{IsAnalysed};
ghost use Rattle.tta_build.specs.Value.{IsListedWith, IsHomedBest};

use crate::best_candidate::{Planned, plan_lists};
use crate::keeping::{beside, chosen};
use crate::register::{Analysed, RegisterOrder, analyse, are_alike, homes_by};
use std::alloc::{AllocError, Global};
use tta_alloc::Homes;
use tta_connect::BuildTarget;
use tta_lir::Rir;
use tta_lower::{LowerError, lower};
use tta_moves::Placed;
use tta_ops::UnitSet;
use tta_program::{Proc, Program};
use tta_select::select;

/// Up to so many steps a program is tried with home registers given in either way. Which way gives
/// the shorter code differs little in a long program, and each takes its time.
pub const FEW_STEPS: usize = 1024;

/// The homes of the variables of a program for what is chosen on a machine. It fails only where
/// there is no memory.
fn homes_for(
    alloc: Global,
    on: &BuildTarget<'_>,
    p: &Program,
    known: &Analysed,
    sharing: RegisterOrder,
) -> Result<Homes, AllocError>
    requires known { IsAnalysed p.now known.now }
    ensures { IfOk result (λ h. AreHomesBy sharing p.now on.now.choice.now h) }
{
    on.joined.machine.rules();
    let homes = on.choice.homes.len() as u32;
    homes_by(alloc, p, &known.flow, &known.live, homes, sharing)
}

/// The homes with the least free registers, for a program that is small and in which they differ
/// from those in turn. It fails only where there is no memory.
fn other_homes(
    alloc: Global,
    on: &BuildTarget<'_>,
    p: &Program,
    known: &Analysed,
    turns: &Homes,
) -> Result<Option<Homes>, AllocError>
    requires known { IsAnalysed p.now known.now }
    ensures { IfOk result
        (λ o. IfSome o (λ h. AreHomesBy RegisterOrder.Least p.now on.now.choice.now h)) }
{
    if !is_small(p) {
        return Ok(None);
    }
    let least = homes_for(alloc, on, p, known, RegisterOrder::Least)?;
    if are_alike(p, turns, &least) {
        return Ok(None);
    }
    Ok(Some(least))
}

/// The register code of a program, and the lists of its blocks with their placements.
#[derive(Drop)]
pub struct Listed {
    pub code: Rir,
    pub planned: Planned,
}

/// The homes of a program's variables, and what they make of it.
#[derive(Drop)]
pub struct Homed {
    pub homes: Homes,
    pub listed: Listed,
}

/// The lists of a program whose needs usable units offer, with these homes, and their placements.
fn homed_with(
    alloc: Global,
    on: &BuildTarget<'_>,
    p: &Program,
    units: &UnitSet,
    known: &Analysed,
    homes: Homes,
) -> Result<Homed, LowerError>
    requires over { StandsOver (stated unit_meaning units.now) on.now.joined.machine.now }
    requires offered { let U = stated unit_meaning units.now in
        are_offered U on.now.joined.machine.now on.now.choice.now p.now ≡ true }
    requires known { IsAnalysed p.now known.now }
    requires kept { SlotsAsScanned p.now (length on.now.choice.now.homes) homes }
    ensures homes { IfOk result (λ r. r.homes ≡ homes) }
    ensures listed { let U = stated unit_meaning units.now in let C = on.now.choice.now in
        IfOk result (λ r. IsListedWith homes U on.now.joined.machine.now C p.now known.now r.listed) }
    ensures cause { IfErr result (λ e. IsCause p.now on.now.joined.machine.now.frame_words e) }
{
    let m = on.joined.machine;
    m.rules();
    p.rules();
    let code = lower(alloc, p, &known.flow, &known.live, &homes, m.frame_words)?;
    let selected = select(alloc, &code, m, on.joined.net, on.choice, units)?;
    let planned = plan_lists(alloc, on, selected);
    let (code, planned) = beside(code, planned)?;
    let listed = Listed { code, planned };
    Ok(Homed { homes, listed })
}

/// How many cycles placed blocks take, one after another.
pub fn total_length(ps: &[Placed]) -> u64
    requires { length ps.now ≤ most_blocks }
    ensures { result ≡ total_length ps.now }
{
    let mut total = 0;
    for p in ps {
        total += u64::from(p.length);
    }
    total
}

/// Whether procedures have at most so many steps.
#[tactic(auto, using(tta_ops::proofs::Walk::size_of_rest))]
fn have_at_most(procs: &[Proc], most: usize) -> bool
    ensures { IsTrue result ↔ (sum_by (λ q. length q.steps) procs.now ≤ most) }
{
    let mut left = most;
    for q in procs {
        let steps = q.steps.len();
        if steps > left {
            return false;
        }
        left -= steps;
    }
    true
}

/// Whether a program has at most `FEW_STEPS` steps: then home registers are given in either way.
pub fn is_small(p: &Program) -> bool
    ensures { IsTrue result ↔ (step_count p.now ≤ 1024) }
{
    have_at_most(p.procs.as_slice(), FEW_STEPS)
}

/// The lists whose placements take fewer cycles, the first on a tie.
fn shorter(first: Homed, other: Homed) -> Homed
    requires first { length first.listed.planned.placed.items ≤ most_blocks }
    requires other { length other.listed.planned.placed.items ≤ most_blocks }
    ensures { result ≡ (if nat_lt (total_length other.listed.planned.placed.items)
        (total_length first.listed.planned.placed.items) then other else first) }
{
    let cycles = total_length(first.listed.planned.placed.as_slice());
    let others = total_length(other.listed.planned.placed.as_slice());
    chosen(others < cycles, first, other)
}

/// The lists of a program whose needs usable units offer, and their placements. A small program is
/// tried with home registers in turn and with the least free ones, unless these are the same; of the
/// two that with fewer cycles stays.
pub fn homed_best(
    alloc: Global,
    on: &BuildTarget<'_>,
    p: &Program,
    units: &UnitSet,
    known: &Analysed,
) -> Result<Homed, LowerError>
    requires over { StandsOver (stated unit_meaning units.now) on.now.joined.machine.now }
    requires offered { let U = stated unit_meaning units.now in
        are_offered U on.now.joined.machine.now on.now.choice.now p.now ≡ true }
    requires known { IsAnalysed p.now known.now }
    ensures best { let U = stated unit_meaning units.now in IfOk result
        (λ r. IsHomedBest U on.now.joined.machine.now on.now.choice.now p.now known.now r) }
    ensures cause { IfErr result (λ e. IsCause p.now on.now.joined.machine.now.frame_words e) }
{
    on.joined.machine.rules();
    p.rules();
    let turns = homes_for(alloc, on, p, known, RegisterOrder::LongestFree)?;
    let first = homed_with(alloc, on, p, units, known, turns)?;
    let least = other_homes(alloc, on, p, known, &first.homes);
    let (first, least) = beside(first, least)?;
    match least {
        Some(least) => {
            let other = homed_with(alloc, on, p, units, known, least);
            let (first, other) = beside(first, other)?;
            Ok(shorter(first, other))
        }
        None => Ok(first),
    }
}
