//! Control: which instruction comes next.

ghost use Rattle.std.specs.Prelude.{◌≡◌, ◌+◌, ◌<◌, ◌^◌, None, option_map};
ghost use Rattle.tta_code.specs.Cycle.{State, takes_effect, lands};
ghost use Rattle.tta_sim.specs.Starts.{kind_and_word};
ghost use Rattle.tta_sim.specs.Controls.{underway, controlled, pending_with, outcome_of};

/// The kinds of control moves.
#[derive(Clone, Copy)]
pub enum ControlKind {
    Jump,
    Call,
    Halt,
}

/// A control move that acts, with the moved word.
#[derive(Clone, Copy)]
pub struct ControlMove {
    pub kind: ControlKind,
    pub word: u32,
}

/// A control move that has not taken effect, and the cycle in which it does.
#[derive(Clone, Copy)]
pub struct Pending {
    pub time: u64,
    pub acting: ControlMove,
}

/// How a run stands.
#[derive(Clone, Copy)]
pub enum Phase {
    Running,
    Halted,
    Fault(u8),
}

/// The address of the next instruction, the control move under way, and how the run stands.
#[derive(Clone, Copy)]
pub struct Control {
    pub pc: u32,
    pub pending: Option<Pending>,
    pub phase: Phase,
}

impl Control {
    /// Control at the start of a run.
    pub fn first() -> Self
        ensures { result ≡ record { pc = 0; pending = None; phase = Phase.Running } }
    {
        Control {
            pc: 0,
            pending: None,
            phase: Phase::Running,
        }
    }

    /// A control move takes effect.
    #[inline(always)]
    fn take_effect(&mut self, p: Pending)
        ensures { (s : State)
            → controlled s self.new ≡ takes_effect (controlled s self.old) (underway p) }
    {
        self.pending = None;
        match p.acting.kind {
            ControlKind::Jump | ControlKind::Call => self.pc = p.acting.word,
            ControlKind::Halt => self.phase = Phase::Halted,
        }
    }

    /// The control move under way takes effect where its time has come.
    #[inline(always)]
    pub fn land(&mut self, now: u64)
        ensures { (s : State) → s.cycle ≡ now → let p = option_map underway self.old.pending in
            controlled s self.new ≡ lands (controlled s self.old) p }
    {
        if let Some(p) = self.pending
            && p.time == now
        {
            self.take_effect(p);
        }
    }

    /// Takes the control move of a cycle, if any acted. The cycle after it is `now`.
    fn take_move(&mut self, acting: Option<ControlMove>, now: u64, delay: u8)
        requires few { now + 256 < 2 ^ 64 }
        ensures pc { self.new.pc ≡ self.old.pc }
        ensures phase { self.new.phase ≡ self.old.phase }
        ensures pending { let before = option_map underway self.old.pending in
            option_map underway self.new.pending
            ≡ pending_with now delay before (option_map kind_and_word acting) }
    {
        if let Some(acting) = acting {
            self.pending = Some(Pending {
                time: now + u64::from(delay),
                acting,
            });
        }
    }

    /// Goes on to the next cycle, which is `now`, where `acting` is the control move that acted.
    pub fn advance(&mut self, acting: Option<ControlMove>, now: u64, delay: u8)
        requires within { self.old.pc + 1 < 2 ^ 32 }
        requires few { now + 256 < 2 ^ 64 }
        ensures { (s : State) → s.cycle ≡ now
            → let before = option_map underway self.old.pending in
            let p = pending_with now delay before (option_map kind_and_word acting) in
            let outcome = outcome_of now self.old.phase in
            let next = record s { pc = self.old.pc + 1; pending = p; outcome = outcome } in
            controlled s self.new ≡ lands next p }
    {
        self.pc += 1;
        self.take_move(acting, now, delay);
        self.land(now);
    }
}
