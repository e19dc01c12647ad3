//! The control move under way, followed beside a run, which does not show it.

ghost use Rattle.std.specs.Prelude.{◌≡◌, ◌+◌, ◌<◌, ◌^◌, None, Some, is_some, option_map};
ghost use Rattle.std.specs.Prelude.{length, true, IsTrue};
ghost use Rattle.std.specs.List.{AllByRecursion};
ghost use Rattle.tta_arch.specs.Effects.{first_some, is_active, moved};
ghost use Rattle.tta_code.specs.Cycle.{State, read_source, effect_of};
ghost use Rattle.tta_sim.specs.Held.{Stands, IsRunOf};
ghost use Rattle.tta_sim.specs.Moves.{is_askable, is_possible, is_possible_slot, is_readable};
ghost use Rattle.tta_play.specs.Controls.{acting, acts_in, control_in, kind_at, kind_of};
ghost use Rattle.tta_play.specs.Controls.{Follows, pending_of, started, unless_now};
ghost use Rattle.tta_ops.specs.Set.{stated};
ghost use Rattle.tta_list.specs.Input.{IsFed};
ghost use Rattle.tta_code.specs.Cycle.{next as next_state};
ghost use Rattle.tta_profile.specs.Feed.{went_on};
ghost use Rattle.tta_sim.specs.Held.{GoesTo, IsAnswer, cycles_of};

use tta_arch::{Dest, Source};
use tta_code::Move;
use tta_places::{coming, slots_of};
use tta_profile::{Basis, went_on};
use tta_sim::{CycleStep, Sim};

/// What control can be made to do.
#[derive(Clone, Copy)]
pub enum ControlKind {
    Jump,
    Call,
    Halt,
}

/// A control move that acts, and its word.
#[derive(Clone, Copy)]
pub struct ControlMove {
    pub kind: ControlKind,
    pub word: u32,
}

/// A control move that is under way: how many cycles are made when it takes effect, what it is, and its word.
#[derive(Clone, Copy)]
pub struct UnderWay {
    pub time: u64,
    pub kind: ControlKind,
    pub word: u32,
}

/// What a destination makes control do.
fn kind_at(dst: Dest) -> Option<ControlKind>
    ensures { option_map kind_of result ≡ kind_at dst }
{
    match dst {
        Dest::Reg { .. } | Dest::Operand { .. } | Dest::Trigger { .. } => None,
        Dest::Jump => Some(ControlKind::Jump),
        Dest::Call => Some(ControlKind::Call),
        Dest::Halt => Some(ControlKind::Halt),
    }
}

/// The word of a source.
fn read_source(sim: &Sim, source: Source) -> Option<u32>
    requires { IsTrue (is_readable (length sim.now.shown) source) }
    ensures { (s : State) → Stands sim.now s → result ≡ read_source s source }
{
    match source {
        Source::Reg { file, index } => sim.reg(file, index),
        Source::Imm { unit, index } => sim.immediate(unit, index),
        Source::Shown { unit } => sim.port(unit),
        Source::Ra => sim.return_address(),
        Source::Value(word) => Some(word),
    }
}

/// Whether a move acts.
fn is_active(sim: &Sim, v: Move) -> bool
    requires { IsTrue (is_askable v.guard) }
    ensures { (s : State) → Stands sim.now s
        → result ≡ is_active (read_source s) (effect_of v) }
{
    let Some(on) = v.guard else {
        return true;
    };
    match sim.reg(on.file, on.index) {
        None => false,
        Some(word) => on.inverted == (word == 0),
    }
}

/// The word that a move brings, if it acts.
fn word_of(sim: &Sim, v: Move) -> Option<u32>
    requires { IsTrue (is_possible (length sim.now.shown) v) }
    ensures { (s : State) → Stands sim.now s
        → result ≡ moved (read_source s) (effect_of v) }
{
    if is_active(sim, v) {
        read_source(sim, v.src)
    } else {
        None
    }
}

/// The control move of a slot, if it acts.
fn control_in(sim: &Sim, slot: Option<Move>) -> Option<ControlMove>
    requires { IsTrue (is_possible_slot (length sim.now.shown) slot) }
    ensures { (s : State) → Stands sim.now s
        → option_map acting result ≡ control_in s slot }
{
    let v = slot?;
    let kind = kind_at(v.dst)?;
    let word = word_of(sim, v)?;
    Some(ControlMove { kind, word })
}

/// The first control move of slots that acts.
fn first_in(sim: &Sim, slots: &[Option<Move>]) -> Option<ControlMove>
    requires { AllByRecursion (λ slot. IsTrue (is_possible_slot (length sim.now.shown) slot))
        slots.now }
    ensures { (s : State) → Stands sim.now s
        → option_map acting result ≡ first_some (control_in s) slots.now }
{
    for slot in slots {
        if let Some(c) = control_in(sim, *slot) {
            return Some(c);
        }
    }
    None
}

/// The control move that acts in the cycle that comes, if one does.
fn acts_in(sim: &Sim, basis: &Basis<'_>) -> Option<ControlMove>
    requires loaded { IsRunOf basis.now.m.now basis.now.code.now sim.now }
    ensures { (s : State) → Stands sim.now s
        → option_map acting result ≡ acts_in basis.now.code.now.words s }
{
    let m = basis.m;
    m.rules();
    first_in(sim, slots_of(coming(sim, basis.code)))
}

/// The control move that is under way after a cycle in which this one acted. `now` cycles are made.
fn started(
    before: Option<UnderWay>,
    control: Option<ControlMove>,
    now: u64,
    delay: u8,
) -> Option<UnderWay>
    requires { now < 2 ^ 63 }
    ensures { option_map pending_of result
        ≡ started now delay (option_map pending_of before) (option_map acting control) }
{
    match control {
        None => before,
        Some(c) => Some(UnderWay {
            time: now + u64::from(delay),
            kind: c.kind,
            word: c.word,
        }),
    }
}

/// What is under way, unless it takes effect now.
fn unless_now(under_way: Option<UnderWay>, now: u64) -> Option<UnderWay>
    ensures { option_map pending_of result ≡ unless_now now (option_map pending_of under_way) }
{
    match under_way {
        None => None,
        Some(p) => { if p.time == now { None } else { Some(p) } }
    }
}

/// Carries out a cycle of a run, and follows the control move that is under way.
pub fn cycle_followed(
    sim: &mut Sim,
    under_way: &mut Option<UnderWay>,
    basis: &Basis<'_>,
    next: Option<u32>,
) -> CycleStep
    requires loaded { IsRunOf basis.now.m.now basis.now.code.now sim.old }
    requires few { sim.old.cycle < 2 ^ 62 }
    ensures loaded { IsRunOf basis.now.m.now basis.now.code.now sim.new }
    ensures counted { sim.new.cycle ≡ sim.old.cycle + cycles_of result }
    ensures next { let on = basis.now in
        let step = next_state (stated unit_meaning on.units.now) on.m.now on.code.now in
        (s : State) → Stands sim.old s → IsFed s.rest next → GoesTo sim.new s (step s) result }
    ensures answer { let on = basis.now in let U = stated unit_meaning on.units.now in
        (s : State) → Stands sim.old s → IsFed s.rest next
        → IsAnswer U on.m.now on.code.now s result }
    ensures follows { let on = basis.now in
        let step = next_state (stated unit_meaning on.units.now) on.m.now on.code.now in
        (s : State) → Follows sim.old under_way.old s → IsFed s.rest next
        → is_some (went_on result) ≡ true → Follows sim.new under_way.new (step s) }
    ensures stays { went_on result ≡ None → under_way.new ≡ under_way.old }
{
    let m = basis.m;
    let control = acts_in(&*sim, basis);
    let step = sim.cycle(m, basis.code, basis.units, next);
    if went_on(step).is_some() {
        let now = sim.cycles();
        *under_way = unless_now(started(*under_way, control, now, m.control.delay), now);
    }
    step
}
