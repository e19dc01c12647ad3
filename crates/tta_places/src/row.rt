//! The words that registers, immediate registers, operand ports and the return address keep.

ghost use Rattle.std.specs.Prelude.{◌≡◌, ◌<◌, [], ◌∷◌, IfOk, IsTrue};
ghost use Rattle.tta_arch.specs.Effects.{KeptReg, KeptImm, KeptOperand, KeptRa, Place, Written};
ghost use Rattle.tta_sim.specs.Places.{is_place, number_of, place_count, word_at, HasWritten};

use std::alloc::{AllocError, Global};
use std::marker::Model;

/// How many files a machine has at most, and how many registers a file.
const FILES: usize = 8;

const REGISTERS: usize = 64;

/// How many immediate units a machine has at most, and how many registers one of them.
const IMMEDIATE_UNITS: usize = 4;

const IMMEDIATE_REGISTERS: usize = 16;

/// How many units a machine has at most.
const UNITS: usize = 32;

/// Where the immediate registers stand in the row, after those of all files.
const IMMEDIATES: usize = FILES * REGISTERS;

/// Where the operand ports stand, after the immediate registers.
const OPERANDS: usize = IMMEDIATES + IMMEDIATE_UNITS * IMMEDIATE_REGISTERS;

/// Where the return address stands, after the operand ports of all units.
const RETURN_ADDRESS: usize = OPERANDS + UNITS;

/// How many places there are.
const PLACES: usize = RETURN_ADDRESS + 1;

/// What the places of a machine keep, none where none was ever written, in one row with room for as
/// many places as any machine can have.
#[derive(Drop)]
pub struct Row {
    words: Vec<Option<u32>>,
}

impl Model for Row {
    ghost use Rattle.std.specs.Prelude.{◌≡◌, ℕ, List, Option, length};
    ghost use Rattle.tta_sim.specs.Places.{place_count};

    ghost Value = { List (Option ℕ) };

    ghost view = { λ r. r.words.items };

    ghost invariant = { λ r. length r.words.items ≡ place_count };
}

impl Row {
    /// No word was ever written.
    pub fn unset(alloc: Global) -> Result<Self, AllocError>
        ensures { IfOk result (λ r. HasWritten r []) }
    {
        Ok(Row {
            words: vec![in alloc; None; PLACES]?,
        })
    }

    /// The word of a register of a file.
    pub fn register(&self, file: u8, index: u8) -> Option<u32>
        requires { IsTrue (is_place (KeptReg file index)) }
        ensures { result ≡ word_at self.now (KeptReg file index) }
    {
        self.words[usize::from(file) * REGISTERS + usize::from(index)]
    }

    /// The word of a register of an immediate unit.
    pub fn immediate(&self, unit: u8, index: u8) -> Option<u32>
        requires { IsTrue (is_place (KeptImm unit index)) }
        ensures { result ≡ word_at self.now (KeptImm unit index) }
    {
        self.words[IMMEDIATES + usize::from(unit) * IMMEDIATE_REGISTERS + usize::from(index)]
    }

    /// The word at the operand port of a unit.
    pub fn operand(&self, unit: u8) -> Option<u32>
        requires { IsTrue (is_place (KeptOperand unit)) }
        ensures { result ≡ word_at self.now (KeptOperand unit) }
    {
        self.words[OPERANDS + usize::from(unit)]
    }

    /// The return address.
    pub fn return_address(&self) -> Option<u32>
        ensures { result ≡ word_at self.now KeptRa }
    {
        self.words[RETURN_ADDRESS]
    }

    /// Puts a word into the place with this number in the row.
    fn set(&mut self, number: usize, word: u32)
        requires { number < place_count }
        ensures { (p : Place) → (written : Written) → IsTrue (is_place p) → number_of p ≡ number
            → HasWritten self.old written → HasWritten self.new ((p, word) ∷ written) }
    {
        self.words[number] = Some(word);
    }

    /// Writes a word into a register of a file.
    pub fn set_register(&mut self, file: u8, index: u8, word: u32)
        requires { IsTrue (is_place (KeptReg file index)) }
        ensures { (written : Written) → HasWritten self.old written
            → HasWritten self.new ((KeptReg file index, word) ∷ written) }
    {
        self.set(usize::from(file) * REGISTERS + usize::from(index), word);
    }

    /// Writes a word into a register of an immediate unit.
    pub fn set_immediate(&mut self, unit: u8, index: u8, word: u32)
        requires { IsTrue (is_place (KeptImm unit index)) }
        ensures { (written : Written) → HasWritten self.old written
            → HasWritten self.new ((KeptImm unit index, word) ∷ written) }
    {
        self.set(
            IMMEDIATES + usize::from(unit) * IMMEDIATE_REGISTERS + usize::from(index),
            word,
        );
    }

    /// Writes a word into the operand port of a unit.
    pub fn set_operand(&mut self, unit: u8, word: u32)
        requires { IsTrue (is_place (KeptOperand unit)) }
        ensures { (written : Written) → HasWritten self.old written
            → HasWritten self.new ((KeptOperand unit, word) ∷ written) }
    {
        self.set(OPERANDS + usize::from(unit), word);
    }

    /// Writes the return address.
    pub fn set_return_address(&mut self, word: u32)
        ensures { (written : Written) → HasWritten self.old written
            → HasWritten self.new ((KeptRa, word) ∷ written) }
    {
        self.set(RETURN_ADDRESS, word);
    }
}
