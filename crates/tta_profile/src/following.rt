//! The words that are followed beside a run.

ghost use Rattle.std.specs.Prelude.{◌≡◌, [], map, IfOk, OnOk};
ghost use Rattle.tta_code.specs.Cycle.{State};
ghost use Rattle.tta_sim.specs.Held.{Stands, IsRunOf};
ghost use Rattle.tta_sim.specs.Places.{HasWritten};
ghost use Rattle.tta_places.specs.Carried.{carried, coming, slots_of};

use crate::counting::Basis;
use std::alloc::{AllocError, Global};
use tta_places::{Row, coming, push_carried, slots_of};
use tta_sim::Sim;

/// The words that the places of the machine keep in a run, and those that the moves of its next
/// instruction carry.
#[derive(Drop)]
pub struct Followed {
    pub row: Row,
    pub carried: Vec<Option<u32>>,
}

/// The words of a run in which none was ever written.
pub fn unset(alloc: Global) -> Result<Followed, AllocError>
    ensures { IfOk result (λ f. HasWritten f.row []) }
{
    let row = Row::unset(alloc)?;
    Ok(Followed {
        row,
        carried: Vec::new(alloc),
    })
}

/// Notes the words that the moves of the next instruction carry.
pub fn note_carried(followed: &mut Followed, basis: &Basis<'_>, sim: &Sim) -> Result<(), AllocError>
    requires loaded { IsRunOf basis.now.m.now basis.now.code.now sim.now }
    ensures row { followed.new.row ≡ followed.old.row }
    ensures carried { (s : State) → Stands sim.now s → HasWritten followed.old.row s.written
        → OnOk result (followed.new.carried.items
        ≡ map (carried s) (slots_of (coming basis.now.code.now.words s))) }
{
    let m = basis.m;
    m.rules();
    let slots = slots_of(coming(sim, basis.code));
    followed.carried.clear();
    push_carried(&mut followed.carried, &followed.row, sim, slots)?;
    Ok(())
}
