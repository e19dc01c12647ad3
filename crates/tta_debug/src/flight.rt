//! The results in flight.

ghost use Rattle.std.specs.Prelude.{◌≡◌, ◌+◌, ◌<◌, ◌≤◌, ◌^◌, length, is_err};
ghost use Rattle.std.specs.List.{AllByRecursion};
ghost use Rattle.tta_sim.specs.Held.{Stands};
ghost use Rattle.tta_ports.specs.Faults.{CountsFault};
ghost use Rattle.tta_ports.specs.Sink.{PutsBytes};
ghost use Rattle.tta_debug.specs.Debugged.{Debugged, texts, due_line, due_lines, unit_lines};

use tta_arch::{Machine, Unit};
use tta_ports::{Failed, Sink};
use tta_report::put_due;
use tta_sim::Sim;

/// Puts the line of a unit's result that is due so many cycles from now, if one is.
fn put_one<S: Sink>(sink: &mut S, sim: &Sim, name: &[u8], unit: u8, delay: u8) -> Result<(), Failed>
    requires name { length name.now ≤ 64 }
    requires unit { unit < length sim.now.shown }
    requires few { sim.now.cycle < 2 ^ 62 }
    ensures grows { (d : Debugged) → Stands sim.now d.state
        → PutsBytes (texts (due_line d name.now unit delay))
        (S.output sink.old).taken (S.output sink.new).taken result }
    ensures cause { CountsFault (is_err result) (S.output sink.old).faults
        (S.output sink.new).faults }
{
    match sim.due(unit, delay) {
        None => Ok(()),
        Some(value) => put_due(sink, name, sim.cycles() + u64::from(delay), value),
    }
}

/// Puts the lines of a unit's results that are due later.
fn put_unit<S: Sink>(sink: &mut S, sim: &Sim, name: &[u8], unit: u8) -> Result<(), Failed>
    requires name { length name.now ≤ 64 }
    requires unit { unit < length sim.now.shown }
    requires few { sim.now.cycle < 2 ^ 62 }
    ensures grows { (d : Debugged) → Stands sim.now d.state
        → PutsBytes (texts (due_lines d name.now unit 1 16))
        (S.output sink.old).taken (S.output sink.new).taken result }
    ensures cause { CountsFault (is_err result) (S.output sink.old).faults
        (S.output sink.new).faults }
{
    let mut delay = 1u8;
    'delays: while delay <= 16 {
        put_one(sink, sim, name, unit, delay)?;
        delay += 1;
    }
    Ok(())
}

/// Puts the lines of the results of some units, the first of which has the number 0.
fn put_units<S: Sink>(sink: &mut S, sim: &Sim, units: &[Unit]) -> Result<(), Failed>
    requires units { length sim.now.shown ≡ length units.now }
    requires few_units { length units.now ≤ 32 }
    requires names { AllByRecursion (λ u. length u.name ≤ 64) units.now }
    requires few { sim.now.cycle < 2 ^ 62 }
    ensures grows { (d : Debugged) → Stands sim.now d.state
        → PutsBytes (texts (unit_lines d 0 units.now)) (S.output sink.old).taken
        (S.output sink.new).taken result }
    ensures cause { CountsFault (is_err result) (S.output sink.old).faults
        (S.output sink.new).faults }
{
    let mut number = 0u8;
    'units: for unit in units {
        put_unit(sink, sim, unit.name.as_bytes(), number)?;
        number += 1;
    }
    Ok(())
}

/// Puts the lines of all results that are due later, unit by unit.
#[tactic(auto, using(crate::proofs::Flying::short_names))]
pub fn put_flight<S: Sink>(sink: &mut S, sim: &Sim, m: &Machine) -> Result<(), Failed>
    requires units { length sim.now.shown ≡ length m.now.units }
    requires few { sim.now.cycle < 2 ^ 62 }
    ensures grows { (d : Debugged) → Stands sim.now d.state
        → PutsBytes (texts (unit_lines d 0 m.now.units))
        (S.output sink.old).taken (S.output sink.new).taken result }
    ensures cause { CountsFault (is_err result) (S.output sink.old).faults
        (S.output sink.new).faults }
{
    put_units(sink, sim, m.units.as_slice())
}
