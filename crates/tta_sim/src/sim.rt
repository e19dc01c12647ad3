//! A run.

ghost use Rattle.std.specs.Prelude.{◌≡◌, ◌+◌, ◌<◌, ◌≤◌, ◌^◌, [], ℕ, List, length};
ghost use Rattle.std.specs.Prelude.{if◌then◌else◌, false, ◌&&◌, is_none};
ghost use Rattle.std.specs.Prelude.{replicate, IfOk};
ghost use Rattle.tta_ops.specs.Set.{stated};
ghost use Rattle.tta_arch.specs.Effects.{kept};
ghost use Rattle.tta_code.specs.Cycle.{State, next as next_state, start};
ghost use Rattle.tta_code.specs.Legal.{IsLegalCode};
ghost use Rattle.tta_sim.specs.Results.{HasUnits, AreResultsOf, units_of};
ghost use Rattle.tta_list.specs.Input.{IsFed};
ghost use Rattle.tta_list.specs.Iterate.{iterate};
ghost use Rattle.tta_sim.specs.Held.{Stands, GoesTo, IsAnswer, IsSilentRun, IsRunOf, has_taken};
ghost use Rattle.tta_sim.specs.Held.{cycles_of, goes_pure};
ghost use Rattle.tta_sim.specs.declared.cycle_step.CycleStep.TheVariants.{Waiting};

use crate::cycle_step::CycleStep;
use crate::flat::{Row, rows_of};
use crate::run::Basis;
use crate::state::SimState;
use std::alloc::{AllocError, Global};
use std::marker::Model;
use tta_arch::Machine;
use tta_code::Code;
use tta_flight::Region;
use tta_ops::UnitSet;

/// The longest latency that a unit can have, in cycles.
const LONGEST: u8 = 16;

/// The run of a machine's code, cycle by cycle: the words of registers, ports and spaces, the
/// results that are still to come, and control. The input and the output are not kept.
#[derive(Drop)]
pub struct Sim {
    pub(crate) state: SimState,
    pub(crate) region: Region,
    /// The lines of the code in rows, with what is known of them.
    rows: Vec<Row>,
}

impl Model for Sim {
    ghost use Rattle.tta_sim.specs.Held.{Held, held_with};
    ghost use Rattle.tta_sim.specs.Known.{all_shown, AreKnown};

    ghost Value = { Held };

    ghost view = { λ s. held_with s.state s.region };

    ghost invariant = { λ s.
        AreKnown s.state.places (all_shown s.region) s.state.lines s.rows.items };
}

/// The longest latency that there is, for each of so many units.
fn longest(alloc: Global, units: usize) -> Result<Vec<u8>, AllocError>
    ensures { IfOk result (λ v. v.items ≡ replicate units 16) }
{
    let longest = vec![in alloc; LONGEST; units]?;
    Ok(longest)
}

/// A region of a machine's units: nothing was started.
fn region_of(alloc: Global, m: &Machine) -> Result<Region, AllocError>
    ensures units { IfOk result (λ r. length r.rings ≡ length m.now.units) }
    ensures has_units { IfOk result (λ r. HasUnits 0 m.now r) }
    ensures none { IfOk result (λ r. AreResultsOf [] 0 (units_of 0 m.now r)) }
{
    let longest = longest(alloc, m.units.len())?;
    let region = Region::new(alloc, longest.as_slice())?;
    Ok(region)
}

impl Sim {
    /// The start of a run: the first instruction comes, nothing was ever written, every frame word
    /// is 0, and the data words are these.
    ///
    /// It takes all memory that the run needs: room for each register and port, for 16 results of
    /// each unit that are to come, and for the code twice more, decoded and in rows, with a mark for
    /// each line.
    pub fn load(
        alloc: Global,
        m: &Machine,
        code: &Code,
        memory: Vec<u32>,
    ) -> Result<Self, AllocError>
        requires size { length memory.items ≡ m.now.data_words }
        requires legal { IsLegalCode m.now code.now }
        ensures start { IfOk result (λ r. (input : List ℕ)
            → Stands r (start m.now memory.items input)) }
        ensures loaded { IfOk result (λ r. IsRunOf m.now code.now r) }
    {
        let state = SimState::load(alloc, m, code, memory)?;
        let region = region_of(alloc, m)?;
        let rows = rows_of(alloc, state.lines())?;
        Ok(Sim {
            state,
            region,
            rows,
        })
    }

    /// Carries out one cycle of the code that was loaded, where `next` is the next word of the
    /// input, `None` where none is left. It answers `Ran` with the word that it output, if any. It
    /// answers `Halted` exactly where the run has halted before, `Fault` exactly where this cycle
    /// faults or an earlier one did, and `Waiting` exactly where a cycle without a fault takes a
    /// word of the input and there is none; the run then stays as it is. It takes no memory.
    #[inline(always)]
    pub fn cycle(
        &mut self,
        m: &Machine,
        code: &Code,
        units: &UnitSet,
        next: Option<u32>,
    ) -> CycleStep
        requires loaded { IsRunOf m.now code.now self.old }
        requires few { self.old.cycle < 2 ^ 62 }
        ensures loaded { IsRunOf m.now code.now self.new }
        ensures counted { self.new.cycle ≡ self.old.cycle + cycles_of result }
        ensures next { let U = stated unit_meaning units.now in (s : State)
            → Stands self.old s → IsFed s.rest next
            → GoesTo self.new s (next_state U m.now code.now s) result }
        ensures answer { let U = stated unit_meaning units.now in (s : State)
            → Stands self.old s → IsFed s.rest next → IsAnswer U m.now code.now s result }
        ensures takes { (has_taken result && is_none next) ≡ false }
        ensures waits { result ≡ Waiting → self.new ≡ self.old }
    {
        self.state.cycle(&mut self.region, 0, m, code, units, next)
    }

    /// Notes of the line that comes next that all words are set which it takes, if that is so.
    fn settle(&mut self, m: &Machine, code: &Code)
        requires loaded { IsRunOf m.now code.now self.old }
        requires few { self.old.cycle < 2 ^ 62 }
        ensures { self.new ≡ self.old }
    {
        self.state.settle(&self.region, &mut self.rows, m, code);
    }

    /// Carries out one cycle with a pure line, and answers whether it did. It is not in line, since
    /// most cycles are made in place.
    #[inline(never)]
    fn cycle_pure(&mut self, m: &Machine, code: &Code, units: &UnitSet) -> bool
        requires loaded { IsRunOf m.now code.now self.old }
        requires few { self.old.cycle < 2 ^ 62 }
        ensures loaded { IsRunOf m.now code.now self.new }
        ensures stops { result ≡ false
            → goes_pure self.new.lines self.new.pc self.new.outcome ≡ false }
        ensures counted { self.new.cycle ≤ self.old.cycle + (if result then 1 else 0) }
        ensures next { let U = stated unit_meaning units.now in (s : State) → Stands self.old s
            → IsSilentRun (Stands self.new) s (if result then next_state U m.now code.now s else s) }
    {
        self.state.cycle_pure(&mut self.region, 0, m, code, units)
    }

    /// Carries out so many cycles in place, or as many as there are until a line is not carried out
    /// so. It answers how many it carried out. It hands out no reference to what it reads itself, so
    /// that this stays at hand.
    #[inline(never)]
    fn run_in_place(&mut self, m: &Machine, code: &Code, units: &UnitSet, most: u64) -> u64
        requires loaded { IsRunOf m.now code.now self.old }
        requires few { self.old.cycle + most < 2 ^ 62 }
        ensures loaded { IsRunOf m.now code.now self.new }
        ensures within { result ≤ most }
        ensures counted { self.new.cycle ≤ self.old.cycle + result }
        ensures next { let U = stated unit_meaning units.now in (s : State) → Stands self.old s
            → IsSilentRun (Stands self.new) s (iterate result (next_state U m.now code.now) s) }
    {
        let basis = Basis { m, code, units };
        self.state
            .run_in_place(&mut self.region, self.rows.as_slice(), &basis, most)
    }

    /// Carries out one cycle as `run_silent` does, and answers whether it did.
    fn cycle_silently(&mut self, m: &Machine, code: &Code, units: &UnitSet) -> bool
        requires loaded { IsRunOf m.now code.now self.old }
        requires few { self.old.cycle + 1 < 2 ^ 62 }
        ensures loaded { IsRunOf m.now code.now self.new }
        ensures stops { result ≡ false
            → goes_pure self.new.lines self.new.pc self.new.outcome ≡ false }
        ensures counted { self.new.cycle ≤ self.old.cycle + (if result then 1 else 0) }
        ensures next { let U = stated unit_meaning units.now in (s : State) → Stands self.old s
            → IsSilentRun (Stands self.new) s (if result then next_state U m.now code.now s else s) }
    {
        self.settle(m, code);
        if self.run_in_place(m, code, units, 1) == 1 {
            return true;
        }
        self.cycle_pure(m, code, units)
    }

    /// Carries out so many cycles of the code that was loaded, or as many as there are until a line
    /// may output or take a word, or may store or make control act and is not carried out in place, or
    /// until the run is over. It answers how many it carried out, one that faults among them. It takes
    /// no memory.
    #[inline(never)]
    pub fn run_silent(&mut self, m: &Machine, code: &Code, units: &UnitSet, most: u64) -> u64
        requires loaded { IsRunOf m.now code.now self.old }
        requires few { self.old.cycle + most < 2 ^ 62 }
        ensures loaded { IsRunOf m.now code.now self.new }
        ensures within { result ≤ most }
        ensures stops { result < most
            → goes_pure self.new.lines self.new.pc self.new.outcome ≡ false }
        ensures counted { self.new.cycle ≤ self.old.cycle + result }
        ensures next { let U = stated unit_meaning units.now in (s : State) → Stands self.old s
            → IsSilentRun (Stands self.new) s (iterate result (next_state U m.now code.now) s) }
    {
        let mut made = 0;
        'cycles: while made < most {
            made += self.run_in_place(m, code, units, most - made);
            if made == most {
                return made;
            }
            if !self.cycle_silently(m, code, units) {
                return made;
            }
            made += 1;
        }
        made
    }
}
