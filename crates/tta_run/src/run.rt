//! A run, as the loops see it.

use crate::ended::Ended;
use crate::went::Went;
use tta_ops::UnitSet;
use tta_report::Line;

/// What makes moves one by one, takes words of an input, and outputs words.
pub trait Run {
    ghost use Rattle.std.specs.Prelude.{◌≡◌, ◌≤◌, ◌+◌, ◌<◌, ◌^◌, ℕ, length};
    ghost use Rattle.tta_list.specs.Input.{IsFed};
    ghost use Rattle.tta_list.specs.Iterate.{iterate};
    ghost use Rattle.tta_ops.specs.Set.{stated};
    ghost use Rattle.tta_ops.specs.Units.{Units};
    ghost use Rattle.tta_run.specs.Meaning.{Meaning, Leaves, IsSilentRun, OutputGrows, WaitStays};
    ghost use Rattle.tta_run.specs.Reports.{Reports, WaitReports};

    /// The states that the meaning of the run is about.
    ghost State: { Type 0 };

    /// What no move changes, as the program that is run.
    ghost Course: { Type 0 };

    /// What no move of this run changes.
    ghost course: { Self → Course };

    /// What a move does to a state.
    ghost meaning: { Units → Course → Meaning State };

    /// The run stands for a state: it agrees with it in all but the input and the output.
    ghost stands: { Self → State → Type 0 };

    /// It was made as it has to be, and can go on.
    ghost loaded: { Self → Type 0 };

    /// How many moves it has made.
    ghost moves: { Self → ℕ };

    /// How many data words it has.
    ghost space: { Course → ℕ };

    /// What is reported of a state.
    ghost reports: { Reports State };

    /// Makes a move, where `next` is the next word of the input, `None` where none is left. It takes
    /// no memory.
    fn go(&mut self, units: &UnitSet, next: Option<u32>) -> Went
        requires loaded { loaded self.old }
        requires few { moves self.old < 2 ^ 62 }
        ensures loaded { loaded self.new }
        ensures course { course self.new ≡ course self.old }
        ensures counted { moves self.new ≤ moves self.old + 1 }
        ensures leaves { let m = meaning (stated unit_meaning units.now) (course self.old) in
            (s : State) → stands self.old s → IsFed (m.rest s) next
            → Leaves m (stands self.new) s result };

    /// Makes at most so many moves, and answers how many it made, which may be none. These moves
    /// output nothing and take no word of the input. It takes no memory.
    fn run_silent(&mut self, units: &UnitSet, most: u64) -> u64
        requires loaded { loaded self.old }
        requires few { moves self.old + most < 2 ^ 62 }
        ensures loaded { loaded self.new }
        ensures course { course self.new ≡ course self.old }
        ensures within { result ≤ most }
        ensures counted { moves self.new ≤ moves self.old + result }
        ensures silent { let m = meaning (stated unit_meaning units.now) (course self.old) in
            (s : State) → stands self.old s
            → IsSilentRun m (stands self.new) s (iterate result m.next s) };

    /// How the run stands, where it does not wait.
    fn ended(&self) -> Ended
        ensures { (s : State) → stands self.now s → result ≡ reports.ended s };

    /// All data words, from address 0 on.
    fn memory(&self) -> &[u32]
        requires { loaded self.now }
        ensures words { (s : State) → stands self.now s → result.now ≡ reports.memory s }
        ensures size { length result.now ≡ space (course self.now) };

    /// The line of how long the run was.
    fn count(&self) -> Line
        ensures { (s : State) → stands self.now s → result ≡ reports.count s };

    /// The output of a state begins that of the next one.
    ghost grows: { (units : Units) (c : Course) → OutputGrows (meaning units c) };

    /// A state that waits stays, and has output the same.
    ghost stays: { (units : Units) (c : Course) → WaitStays (meaning units c) };

    /// A state that waits reports that, and else what it did before.
    ghost waits: { (units : Units) (c : Course) → WaitReports (meaning units c) reports };
}
