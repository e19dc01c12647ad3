//! The words of registers and operand ports.

ghost use Rattle.std.specs.Prelude.{◌≡◌, ◌<◌, ◌==◌, [], ◌∷◌, ℕ, None, Some, if◌then◌else◌};
ghost use Rattle.std.specs.Prelude.{slice_index_or, IfOk, IsTrue};
ghost use Rattle.tta_arch.specs.Effects.{KeptReg, KeptImm, KeptOperand, KeptRa, Place, Written};
ghost use Rattle.tta_sim.specs.Places.{is_place, number_of, place_count, word_at, HasWritten};

use std::alloc::{AllocError, Global};
use std::marker::Model;

/// How many registers a file can have.
pub const REGISTERS: u32 = 64;

/// Where the immediate registers stand in the row of places, after the registers of eight files.
pub const IMMEDIATES: u32 = 8 * REGISTERS;

/// How many registers an immediate unit can have.
pub const IMMEDIATE_REGISTERS: u32 = 16;

/// Where the operand ports stand, after the registers of four immediate units.
pub const OPERANDS: u32 = IMMEDIATES + 4 * IMMEDIATE_REGISTERS;

/// Where the return address stands, after the operand ports of 32 units.
pub const RETURN_ADDRESS: u32 = OPERANDS + 32;

/// The number behind those of the places.
pub const NO_PLACE: u32 = RETURN_ADDRESS + 1;

/// How many places there are.
pub const PLACES: usize = NO_PLACE as usize;

/// The words that registers, immediate registers, operand ports and the return address keep, where
/// one was ever written. All stand in one row, with room for as many as any machine can have.
#[derive(Drop)]
pub struct Places {
    words: Vec<Option<u32>>,
}

impl Model for Places {
    ghost use Rattle.std.specs.Prelude.{◌≡◌, ℕ, List, Option, length};
    ghost use Rattle.tta_sim.specs.Places.{place_count};

    ghost Value = { List (Option ℕ) };

    ghost view = { λ p. p.words.items };

    ghost invariant = { λ p. length p.words.items ≡ place_count };
}

impl Places {
    /// No word was ever written.
    pub fn unset(alloc: Global) -> Result<Self, AllocError>
        ensures { IfOk result (λ p. HasWritten p []) }
    {
        Ok(Places {
            words: vec![in alloc; None; PLACES]?,
        })
    }

    /// The word of the place with this number in the row.
    pub fn at(&self, number: u32) -> Option<u32>
        requires { number < place_count }
        ensures { result ≡ slice_index_or self.now number None }
    {
        self.words[number as usize]
    }

    /// The word of a register, if it was set.
    pub fn register(&self, file: u8, index: u8) -> Option<u32>
        requires { IsTrue (is_place (KeptReg file index)) }
        ensures { result ≡ word_at self.now (KeptReg file index) }
    {
        self.words[usize::from(file) * REGISTERS as usize + usize::from(index)]
    }

    /// The word of a register of an immediate unit, if it was set.
    pub fn immediate(&self, unit: u8, index: u8) -> Option<u32>
        requires { IsTrue (is_place (KeptImm unit index)) }
        ensures { result ≡ word_at self.now (KeptImm unit index) }
    {
        let first = IMMEDIATES as usize + usize::from(unit) * IMMEDIATE_REGISTERS as usize;
        self.words[first + usize::from(index)]
    }

    /// The word at the operand port of a unit, if one was brought.
    pub fn operand(&self, unit: u8) -> Option<u32>
        requires { IsTrue (is_place (KeptOperand unit)) }
        ensures { result ≡ word_at self.now (KeptOperand unit) }
    {
        self.words[OPERANDS as usize + usize::from(unit)]
    }

    /// The return address, if one was kept.
    pub fn return_address(&self) -> Option<u32>
        ensures { result ≡ word_at self.now KeptRa }
    {
        self.words[RETURN_ADDRESS as usize]
    }

    /// Puts a word into the place with this number in the row.
    pub fn set(&mut self, number: usize, word: u32)
        requires { number < place_count }
        ensures at { (k : ℕ) → slice_index_or self.new k None
            ≡ (if k == number then Some word else slice_index_or self.old k None) }
        ensures written { (p : Place) → (written : Written)
            → IsTrue (is_place p) → number_of p ≡ number
            → HasWritten self.old written → HasWritten self.new ((p, word) ∷ written) }
    {
        self.words[number] = Some(word);
    }
}
