//! The words of a run.

ghost use Rattle.std.specs.Prelude.{◌≡◌, ◌+◌, ◌<◌, ◌^◌, length, option_map, slice_index, IsTrue};
ghost use Rattle.tta_arch.specs.Effects.{KeptReg, KeptImm, KeptOperand, KeptRa, kept};
ghost use Rattle.tta_code.specs.Cycle.{State, port as port_of};
ghost use Rattle.tta_code.specs.Results.{due_at};
ghost use Rattle.tta_sim.specs.Places.{is_place};
ghost use Rattle.tta_sim.specs.Held.{Stands, is_halted, fault_number, as_outcome};

use crate::ending::Ending;
use crate::sim::Sim;

impl Sim {
    /// The word in a register of a file, `None` where none was ever written.
    pub fn reg(&self, file: u8, index: u8) -> Option<u32>
        requires { IsTrue (is_place (KeptReg file index)) }
        ensures { (s : State) → Stands self.now s → result ≡ kept s.written (KeptReg file index) }
    {
        self.state.reg(file, index)
    }

    /// The word in a register of an immediate unit, `None` where none was ever written.
    pub fn immediate(&self, unit: u8, index: u8) -> Option<u32>
        requires { IsTrue (is_place (KeptImm unit index)) }
        ensures { (s : State) → Stands self.now s
            → result ≡ kept s.written (KeptImm unit index) }
    {
        self.state.immediate(unit, index)
    }

    /// The word at a unit's operand port, `None` where none was ever brought.
    pub fn operand(&self, unit: u8) -> Option<u32>
        requires { IsTrue (is_place (KeptOperand unit)) }
        ensures { (s : State) → Stands self.now s → result ≡ kept s.written (KeptOperand unit) }
    {
        self.state.operand(unit)
    }

    /// The return address, `None` where none was ever kept.
    pub fn return_address(&self) -> Option<u32>
        ensures { (s : State) → Stands self.now s → result ≡ kept s.written KeptRa }
    {
        self.state.return_address()
    }

    /// The word on a unit's result port, `None` where no result was due yet.
    pub fn port(&self, unit: u8) -> Option<u32>
        requires { unit < length self.now.shown }
        ensures { (s : State) → Stands self.now s → result ≡ port_of s unit }
    {
        self.region.port(unit)
    }

    /// The result of a unit that is due `delay` cycles from now, `None` where none is.
    pub fn due(&self, unit: u8, delay: u8) -> Option<u32>
        requires unit { unit < length self.now.shown }
        requires few { self.now.cycle < 2 ^ 63 }
        ensures { (s : State) → Stands self.now s
            → result ≡ option_map (λ r. r.value) (due_at unit (s.cycle + delay) s.started) }
    {
        self.region.due(unit, delay)
    }

    /// A data word.
    pub fn mem(&self, i: u32) -> u32
        requires { i < length self.now.memory }
        ensures { result ≡ slice_index self.now.memory i }
    {
        self.state.mem(i)
    }

    /// All data words, from address 0 on.
    pub fn memory(&self) -> &[u32]
        ensures { result.now ≡ self.now.memory }
    {
        self.state.memory()
    }

    /// All frame words, from address 0 on.
    pub fn frame(&self) -> &[u32]
        ensures { result.now ≡ self.now.frame }
    {
        self.state.frame()
    }

    /// The address of the next instruction.
    pub fn pc(&self) -> u32
        ensures { result ≡ self.now.pc }
    {
        self.state.pc()
    }

    /// How many cycles were made.
    pub fn cycles(&self) -> u64
        ensures { result ≡ self.now.cycle }
    {
        self.state.cycles()
    }

    /// Whether the run has halted.
    pub fn halted(&self) -> bool
        ensures { result ≡ is_halted self.now.outcome }
    {
        self.state.halted()
    }

    /// The number of the fault that the run is at, `None` where it is at none.
    pub fn fault(&self) -> Option<u8>
        ensures { result ≡ fault_number self.now.outcome }
    {
        self.state.fault()
    }

    /// How the run stands.
    pub fn ending(&self) -> Ending
        ensures { as_outcome result ≡ self.now.outcome }
    {
        self.state.ending()
    }
}
