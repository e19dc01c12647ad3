//! The parts of a machine's circuit.

ghost use Rattle.std.specs.Prelude.{◌≡◌};
ghost use Rattle.tta_cost.specs.Tally as t;

use tta_measure::Cost;

/// A part of a machine's circuit.
#[derive(Clone, Copy, Debug, PartialEq, Eq)]
pub enum Part {
    /// The word of the instruction, and its fields.
    Instruction,
    /// What the buses carry.
    Buses,
    /// The registers of files.
    Files,
    /// The registers of immediate units.
    Immediates,
    /// What brings words to units, and starts operations.
    Operands,
    /// What keeps the results of operations.
    Results,
    /// Where the next instruction stands, and all that is in no other part.
    Control,
    /// Where data and frame space are written.
    Spaces,
}

/// What the parts are made of.
#[derive(Clone, Copy, Debug, PartialEq, Eq)]
pub struct Parts {
    pub instruction: Cost,
    pub buses: Cost,
    pub files: Cost,
    pub immediates: Cost,
    pub operands: Cost,
    pub results: Cost,
    pub control: Cost,
    pub spaces: Cost,
}

impl Parts {
    ghost use Rattle.std.specs.Prelude.{◌≡◌};
    ghost use Rattle.tta_cost.specs.Tally as t;

    /// Nothing of any part.
    pub fn none() -> Parts
        ensures { result ≡ t.no_parts }
    {
        Parts {
            instruction: Cost::free(),
            buses: Cost::free(),
            files: Cost::free(),
            immediates: Cost::free(),
            operands: Cost::free(),
            results: Cost::free(),
            control: Cost::free(),
            spaces: Cost::free(),
        }
    }

    /// Something more of one of them.
    #[tactic(auto, unfolding(crate::specs::Tally::put))]
    pub fn put(&mut self, part: Part, cost: Cost)
        ensures { self.new ≡ t.put part cost self.old }
    {
        match part {
            Part::Instruction => self.instruction = self.instruction.beside(cost),
            Part::Buses => self.buses = self.buses.beside(cost),
            Part::Files => self.files = self.files.beside(cost),
            Part::Immediates => self.immediates = self.immediates.beside(cost),
            Part::Operands => self.operands = self.operands.beside(cost),
            Part::Results => self.results = self.results.beside(cost),
            Part::Control => self.control = self.control.beside(cost),
            Part::Spaces => self.spaces = self.spaces.beside(cost),
        }
    }

    /// All parts together.
    #[tactic(auto, unfolding(crate::specs::Tally::all_parts))]
    pub fn all(&self) -> Cost
        ensures { result ≡ t.all_parts self.now }
    {
        let last = self.results.beside(self.control.beside(self.spaces));
        let units = self.immediates.beside(self.operands.beside(last));
        self.instruction
            .beside(self.buses.beside(self.files.beside(units)))
    }
}
