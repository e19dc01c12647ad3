//! Instructions.

ghost use Rattle.std.specs.Prelude.{◌≡◌, ◌≤◌, length};
ghost use Rattle.tta_code.specs.Legal.{IsLegalCode};

use tta_arch::{Dest, GuardRef, Machine, Source};
use tta_list::Items;

/// A move: one word from a source to a destination, where its guard lets it.
#[derive(Clone, Copy, Debug, PartialEq, Eq)]
pub struct Move {
    pub guard: Option<GuardRef>,
    pub src: Source,
    pub dst: Dest,
}

/// A long immediate: the template that writes it, and its word.
#[derive(Clone, Copy, Debug, PartialEq, Eq)]
pub struct Long {
    pub template: u8,
    pub value: u32,
}

/// An instruction: a move or none for each bus, and at most one long immediate.
#[derive(Drop)]
pub struct Instruction {
    pub moves: Items<Option<Move>>,
    pub long: Option<Long>,
}

/// The instructions of a machine, from address 0 on.
#[derive(Drop)]
pub struct Code {
    pub words: Items<Instruction>,
}

/// How many instructions code has that a machine can carry out.
#[tactic(auto, using(tta_arch::proofs::Facts::address_most))]
pub fn count_words(code: &Code, m: &Machine) -> u32
    requires legal { IsLegalCode m.now code.now }
    ensures all { result ≡ length code.now.words }
    ensures few { result ≤ 65536 }
{
    // So that the rules of machines are known here, which bound the addresses.
    m.rules();
    code.words.len() as u32
}
