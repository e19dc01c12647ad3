//! Cycles in which the run goes on and no control move takes effect.

ghost use Rattle.std.specs.Prelude.{◌≡◌, ◌+◌, ◌<◌, ◌≤◌, ◌^◌, true, option_map};
ghost use Rattle.tta_code.specs.Cycle.{State, lands};
ghost use Rattle.tta_sim.specs.Starts.{kind_and_word};
ghost use Rattle.tta_sim.specs.Controls.{controlled, outcome_of, pending_with, underway};
ghost use Rattle.tta_sim.specs.Controls.{cycles_in, GoesUntil, IsStretch};
ghost use Rattle.tta_sim.specs.declared.stretch.Pace.TheVariants.{Goes};

use crate::control::{Control, ControlMove, Pending, Phase};

/// Cycles that are made one after another. Up to a cycle the run goes on, and no control move takes effect
/// that is under way, so that none of them asks for that.
#[derive(Clone, Copy)]
pub struct Stretch {
    /// The cycle up to which the run goes on and no control move takes effect.
    pub end: u64,
    /// The cycle up to which cycles are made in any case.
    pub last: u64,
}

/// What became of the line of a cycle.
pub enum Pace {
    /// It was carried out, and the run goes on.
    Goes,
    /// It was carried out, and no more cycles are made.
    Ends,
    /// It was not carried out.
    Stays,
}

impl Pace {
    /// What became of a line that was carried out, by whether a cycle more is made.
    #[inline(always)]
    pub fn of(goes: bool) -> Pace
        ensures made { cycles_in result ≡ 1 }
        ensures goes { result ≡ Goes → goes ≡ true }
    {
        if goes { Pace::Goes } else { Pace::Ends }
    }
}

/// The cycle up to which a run goes on and no control move takes effect, `last` at most.
#[inline(always)]
fn end_of(control: &Control, now: u64, last: u64) -> u64
    requires { now ≤ last }
    ensures within { result ≤ last }
    ensures goes { now < result → GoesUntil result control.now }
{
    match control.phase {
        Phase::Running => {}
        Phase::Halted | Phase::Fault(_) => return now,
    }
    match control.pending {
        None => last,
        Some(p) => last.min(p.time),
    }
}

impl Stretch {
    /// The cycles from `now` up to `last`, of a run with this control.
    #[inline(always)]
    pub fn of(control: &Control, now: u64, last: u64) -> Stretch
        requires { now ≤ last }
        ensures last { result.last ≡ last }
        ensures stretch { IsStretch now control.now result }
    {
        let end = end_of(control, now, last);
        Stretch { end, last }
    }

    /// Takes the control move of a cycle, if any acted. The cycle after it is `now`.
    #[inline(always)]
    pub fn take_move(
        &mut self,
        control: &mut Control,
        acting: Option<ControlMove>,
        now: u64,
        delay: u8,
    )
        requires few { now + 256 < 2 ^ 64 }
        requires soon { now ≤ self.old.end }
        requires goes { GoesUntil self.old.end control.old }
        ensures pc { control.new.pc ≡ control.old.pc }
        ensures phase { control.new.phase ≡ control.old.phase }
        ensures pending { let before = option_map underway control.old.pending in
            option_map underway control.new.pending
            ≡ pending_with now delay before (option_map kind_and_word acting) }
        ensures last { self.new.last ≡ self.old.last }
        ensures within { self.new.end ≤ self.old.end }
        ensures soon { now ≤ self.new.end }
        ensures goes { GoesUntil self.new.end control.new }
    {
        if let Some(acting) = acting {
            let time = now + u64::from(delay);
            control.pending = Some(Pending { time, acting });
            self.end = self.end.min(time);
        }
    }

    /// Goes on to the next cycle, which is `now`, and answers whether a cycle more is made.
    #[inline(always)]
    pub fn advance(&mut self, control: &mut Control, now: u64) -> bool
        requires within { control.old.pc + 1 < 2 ^ 32 }
        requires soon { now ≤ self.old.end }
        requires last { self.old.end ≤ self.old.last }
        requires goes { GoesUntil self.old.end control.old }
        ensures last { self.new.last ≡ self.old.last }
        ensures stretch { IsStretch now control.new self.new }
        ensures goes { result ≡ true → now < self.new.end }
        ensures control { (s : State) → s.cycle ≡ now
            → let p = option_map underway control.old.pending in
            let outcome = outcome_of now control.old.phase in
            let next = record s { pc = control.old.pc + 1; pending = p; outcome = outcome } in
            controlled s control.new ≡ lands next p }
    {
        control.pc += 1;
        if now == self.end {
            control.land(now);
            self.end = end_of(control, now, self.last);
            return now < self.end;
        }
        true
    }
}
