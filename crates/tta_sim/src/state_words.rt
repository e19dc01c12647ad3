//! The words of a run whose results are kept in a region that it is given.

ghost use Rattle.std.specs.Prelude.{◌≡◌, ◌<◌, length, slice_index, IsTrue};
ghost use Rattle.tta_arch.specs.Effects.{KeptReg, KeptImm, KeptOperand, KeptRa, kept};
ghost use Rattle.tta_code.specs.Cycle.{State};
ghost use Rattle.tta_sim.specs.Places.{is_place};
ghost use Rattle.tta_sim.specs.Results.{Results};
ghost use Rattle.tta_sim.specs.Held.{StandsWith, is_halted, fault_number, as_outcome};

use crate::control::Phase;
use crate::ending::Ending;
use crate::spaces::load;
use crate::state::SimState;

impl SimState {
    /// The word in a register of a file, `None` where none was ever written.
    pub fn reg(&self, file: u8, index: u8) -> Option<u32>
        requires { IsTrue (is_place (KeptReg file index)) }
        ensures { (r : Results) (s : State) → StandsWith r self.now s
            → result ≡ kept s.written (KeptReg file index) }
    {
        self.run.store.places.register(file, index)
    }

    /// The word in a register of an immediate unit, `None` where none was ever written.
    pub fn immediate(&self, unit: u8, index: u8) -> Option<u32>
        requires { IsTrue (is_place (KeptImm unit index)) }
        ensures { (r : Results) (s : State) → StandsWith r self.now s
            → result ≡ kept s.written (KeptImm unit index) }
    {
        self.run.store.places.immediate(unit, index)
    }

    /// The word at a unit's operand port, `None` where none was ever brought.
    pub fn operand(&self, unit: u8) -> Option<u32>
        requires { IsTrue (is_place (KeptOperand unit)) }
        ensures { (r : Results) (s : State) → StandsWith r self.now s
            → result ≡ kept s.written (KeptOperand unit) }
    {
        self.run.store.places.operand(unit)
    }

    /// The return address, `None` where none was ever kept.
    pub fn return_address(&self) -> Option<u32>
        ensures { (r : Results) (s : State) → StandsWith r self.now s
            → result ≡ kept s.written KeptRa }
    {
        self.run.store.places.return_address()
    }

    /// A data word.
    pub fn mem(&self, i: u32) -> u32
        requires { i < length self.now.memory }
        ensures { result ≡ slice_index self.now.memory i }
    {
        load(self.run.store.memory.as_slice(), i)
    }

    /// All data words, from address 0 on.
    pub fn memory(&self) -> &[u32]
        ensures { result.now ≡ self.now.memory }
    {
        self.run.store.memory.as_slice()
    }

    /// All frame words, from address 0 on.
    pub fn frame(&self) -> &[u32]
        ensures { result.now ≡ self.now.frame }
    {
        self.run.store.frame.as_slice()
    }

    /// The address of the next instruction.
    pub fn pc(&self) -> u32
        ensures { result ≡ self.now.pc }
    {
        self.run.control.pc
    }

    /// How many cycles were made.
    pub fn cycles(&self) -> u64
        ensures { result ≡ self.now.cycle }
    {
        self.run.store.cycle
    }

    /// Whether the run has halted.
    pub fn halted(&self) -> bool
        ensures { result ≡ is_halted self.now.outcome }
    {
        match self.run.control.phase {
            Phase::Halted => true,
            Phase::Running | Phase::Fault(_) => false,
        }
    }

    /// The number of the fault that the run is at, `None` where it is at none.
    pub fn fault(&self) -> Option<u8>
        ensures { result ≡ fault_number self.now.outcome }
    {
        match self.run.control.phase {
            Phase::Fault(number) => Some(number),
            Phase::Running | Phase::Halted => None,
        }
    }

    /// How the run stands.
    pub fn ending(&self) -> Ending
        ensures { as_outcome result ≡ self.now.outcome }
    {
        match self.run.control.phase {
            Phase::Running => Ending::Running,
            Phase::Halted => Ending::Halted,
            Phase::Fault(number) => Ending::Fault {
                number,
                cycle: self.run.store.cycle,
            },
        }
    }
}
