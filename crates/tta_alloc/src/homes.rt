//! The homes of the variables of a program.

ghost use Rattle.std.specs.Prelude.{◌≡◌, ℕ, List, slice_get, IfOk};
ghost use Rattle.std.specs.Option.{option_map_or};
ghost use Rattle.tta_flow.specs.Blocks.{IsFlow};
ghost use Rattle.tta_flow.specs.Live.{IsLive};
ghost use Rattle.tta_alloc.specs.Homes.{IsScan, IsScanOf, count_of, home_of};
ghost use Rattle.tta_alloc.specs.Allotted.{SlotsAsScanned, ScansAllot};
ghost use Rattle.tta_alloc.specs.Law.{KeepsLaw};
ghost use Rattle.tta_alloc.specs.Turns.{AreInTurn, TurnsAllot};
ghost use Rattle.tta_program.specs.declared.program.Proc.{Proc};

use crate::home::Home;
use crate::scan::scan_homes;
use crate::steps::steps_of;
use crate::taken::taken_of;
use crate::turns::turn_homes;
use std::alloc::{AllocError, Global};
use tta_flow::{Flow, Live};
use tta_program::Program;

/// The homes of the variables of each procedure.
#[derive(Drop)]
pub struct Homes {
    procs: Vec<Vec<Home>>,
    count: u32,
}

impl Homes {
    /// How many home registers the homes were made for.
    #[tactic(auto, unfolding(crate::specs::Homes::count_of))]
    pub fn count(&self) -> u32
        ensures { result ≡ count_of self.now }
    {
        self.count
    }

    /// The home of a variable of a procedure.
    #[tactic(auto, unfolding(crate::specs::Homes::home_of))]
    pub fn home(&self, owner: u32, var: u32) -> Home
        ensures { result ≡ home_of self.now owner var }
    {
        let owner = owner as usize;
        if owner < self.procs.len() {
            entry(self.procs[owner].as_slice(), var)
        } else {
            Home::Slot(var)
        }
    }
}

/// The home of a variable, its slot where the list has none.
fn entry(homes: &[Home], var: u32) -> Home
    ensures { result ≡ option_map_or (λ home. home) (slice_get homes.now var) (Home.Slot var) }
{
    match homes.get(var as usize) {
        Some(home) => *home,
        None => Home::Slot(var),
    }
}

/// The linear scan over so many home registers.
pub fn assign(
    alloc: Global,
    p: &Program,
    f: &Flow,
    live: &Live,
    homes: u32,
) -> Result<Homes, AllocError>
    requires flow { IsFlow p.now f.now.blocks }
    requires live { IsLive p.now live.now }
    ensures scan { IfOk result (λ h. IsScan p.now homes h) }
    ensures allotted { IfOk result (λ h. SlotsAsScanned p.now homes h) }
{
    let procs = p.procs.as_slice();
    let steps = steps_of(alloc, f.blocks.as_slice(), procs.len())?;
    let mut all = Vec::new(alloc);
    for owner in 0..procs.len() {
        let q = &procs[owner];
        let taken = taken_of(alloc, q, owner as u32, steps.at(owner), live)?;
        all.push(scan_homes(alloc, taken.as_slice(), q.vars, homes)?)?;
    }
    Ok(Homes {
        procs: all,
        count: homes,
    })
}

/// Homes that keep the law with the slots of the linear scan over so many home registers, where
/// each of the other variables has the home register that has been free longest.
pub fn in_turn(
    alloc: Global,
    p: &Program,
    f: &Flow,
    live: &Live,
    homes: u32,
) -> Result<Homes, AllocError>
    requires flow { IsFlow p.now f.now.blocks }
    requires live { IsLive p.now live.now }
    ensures turns { IfOk result (λ h. AreInTurn p.now homes h) }
    ensures allotted { IfOk result (λ h. SlotsAsScanned p.now homes h) }
{
    let procs = p.procs.as_slice();
    let steps = steps_of(alloc, f.blocks.as_slice(), procs.len())?;
    let mut all = Vec::new(alloc);
    for owner in 0..procs.len() {
        let q = &procs[owner];
        let taken = taken_of(alloc, q, owner as u32, steps.at(owner), live)?;
        all.push(turn_homes(alloc, q, taken.as_slice(), homes)?)?;
    }
    Ok(Homes {
        procs: all,
        count: homes,
    })
}

/// Every linear scan keeps variables apart, and has few slots.
pub fn scans_keep_apart()
    ensures { (q : Proc) (homes : ℕ) (answer : List Home)
        → IsScanOf q homes answer → KeepsLaw q homes answer }
{}

/// A linear scan is one of the ways to give homes.
pub fn scans_allot()
    ensures { ScansAllot }
{}

/// To give home registers in turn is another.
pub fn turns_allot()
    ensures { TurnsAllot }
{}
