//! From programs to register code.

ghost use Rattle.std.specs.Prelude.{IfOk, IfErr};
ghost use Rattle.tta_flow.specs.Blocks.{IsFlow};
ghost use Rattle.tta_flow.specs.Live.{IsLive};
ghost use Rattle.tta_alloc.specs.Allotted.{SlotsAsScanned};
ghost use Rattle.tta_lower.specs.Statement.{IsCause};
ghost use Rattle.tta_build.specs.Lowered.{IsAnalysed, IsLoweredAs};
ghost use Rattle.tta_build.specs.RegisterOrder.{AreGivenBy};

use std::alloc::{AllocError, Global};
use tta_alloc::{Home, Homes, assign, in_turn};
use tta_flow::{Flow, Live};
use tta_lir::Rir;
use tta_lower::{LowerError, lower};
use tta_program::Program;

/// Which of the free home registers a variable is given.
#[derive(Clone, Copy, Debug, PartialEq, Eq)]
pub enum RegisterOrder {
    /// The one that has been free longest, so that later work need not wait for old reads.
    LongestFree,
    /// The least, as the linear scan gives it.
    Least,
}

/// The basic blocks of a program, and which of its variables are live where.
#[derive(Drop)]
pub struct Analysed {
    pub flow: Flow,
    pub live: Live,
}

/// The basic blocks of a program, and which of its variables are live where. It fails only where
/// there is no memory.
pub fn analyse(alloc: Global, p: &Program) -> Result<Analysed, AllocError>
    ensures { IfOk result (λ known. IsAnalysed p.now known) }
{
    let flow = Flow::of(alloc, p)?;
    let live = Live::of(alloc, p, &flow)?;
    Ok(Analysed { flow, live })
}

/// The homes of the variables of a program, for so many home registers. It fails only where there
/// is no memory.
pub fn homes_by(
    alloc: Global,
    p: &Program,
    flow: &Flow,
    live: &Live,
    homes: u32,
    sharing: RegisterOrder,
) -> Result<Homes, AllocError>
    requires flow { IsFlow p.now flow.now.blocks }
    requires live { IsLive p.now live.now }
    ensures given { IfOk result (λ h. AreGivenBy sharing p.now homes h) }
    ensures allotted { IfOk result (λ h. SlotsAsScanned p.now homes h) }
{
    match sharing {
        RegisterOrder::LongestFree => in_turn(alloc, p, flow, live, homes),
        RegisterOrder::Least => assign(alloc, p, flow, live, homes),
    }
}

/// A program on the way to its lists of moves.
#[derive(Drop)]
pub struct Lowered {
    /// Its basic blocks, and which variables are live where.
    pub known: Analysed,
    /// The homes of its variables.
    pub homes: Homes,
    /// Its register code.
    pub code: Rir,
}

/// A program on the way to its lists, for so many home registers, which are given in turn, and frame
/// words.
pub fn lowered_in_turn(
    alloc: Global,
    p: &Program,
    homes: u32,
    frame_words: u32,
) -> Result<Lowered, LowerError>
    ensures code { IfOk result (λ r. IsLoweredAs p.now homes frame_words r) }
    ensures cause { IfErr result (λ e. IsCause p.now frame_words e) }
{
    let known = analyse(alloc, p)?;
    let kept = homes_by(
        alloc,
        p,
        &known.flow,
        &known.live,
        homes,
        RegisterOrder::LongestFree,
    )?;
    let code = lower(alloc, p, &known.flow, &known.live, &kept, frame_words)?;
    Ok(Lowered {
        known,
        homes: kept,
        code,
    })
}

/// Whether two homes are one.
fn is_same(a: Home, b: Home) -> bool {
    match (a, b) {
        (Home::Reg(k), Home::Reg(other)) | (Home::Slot(k), Home::Slot(other)) => k == other,
        _ => false,
    }
}

/// Whether the variables of a procedure, so many, have the same homes by two ways.
fn have_same(owner: u32, vars: u32, a: &Homes, b: &Homes) -> bool {
    for var in 0..vars {
        if !is_same(a.home(owner, var), b.home(owner, var)) {
            return false;
        }
    }
    true
}

/// Whether each variable of a program has the same home by two ways.
pub fn are_alike(p: &Program, a: &Homes, b: &Homes) -> bool {
    for (owner, q) in p.procs.as_slice().iter().enumerate() {
        let Ok(owner) = u32::try_from(owner) else {
            return false;
        };
        if !have_same(owner, q.vars, a, b) {
            return false;
        }
    }
    true
}
