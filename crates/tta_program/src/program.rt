//! Programs.

use crate::step::Step;
use std::marker::Model;
use tta_list::Items;

/// A procedure.
#[derive(Drop)]
pub struct Proc {
    /// How many parameters it has; they are its first variables.
    pub params: u32,
    /// How many variables it has, the parameters among them.
    pub vars: u32,
    pub steps: Items<Step>,
    /// The line of the program text that each step stands in.
    pub lines: Items<u32>,
}

/// A word that the data memory has at first.
#[derive(Clone, Copy, Debug, PartialEq, Eq)]
pub struct DataLine {
    pub address: u32,
    pub value: u32,
    /// The line of the program text that it stands in.
    pub line: u32,
}

/// A program: its procedures in the order of the text, which of them is `main`, and what its data
/// memory has at first.
#[derive(Drop)]
pub struct Program {
    pub procs: Items<Proc>,
    pub main: u32,
    pub init: Items<DataLine>,
}

impl Model for Program {
    ghost use Rattle.tta_program.specs.Program.{Program};

    ghost Value = { Program };

    ghost view = { λ p. record { procs = p.procs; main = p.main; init = p.init } };

    ghost use Rattle.tta_program.specs.Rules.{IsProgram};

    ghost invariant = { λ p.
        IsProgram (record { procs = p.procs; main = p.main; init = p.init }) };
}

impl Program {
    ghost use Rattle.tta_program.specs.Rules.{IsProgram};

    /// That a program keeps the rules of programs, for a proof that asks for it. It does nothing.
    pub fn rules(&self)
        ensures { IsProgram self.now }
    {
        let _main = self.main;
    }
}
