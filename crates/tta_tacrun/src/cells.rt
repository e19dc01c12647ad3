//! The cells of a procedure.

ghost use Rattle.std.specs.Prelude.{◌≡◌, ◌<◌, ◌≤◌, length, replicate, slice_index, slice_set, IfOk};

use std::alloc::{AllocError, Global};
use std::marker::Model;

/// The variables of a procedure, and behind them a cell that stays 0. They are read as 0 past their
/// end, where a write changes nothing.
#[derive(Drop)]
pub struct Cells {
    words: Vec<u32>,
    /// How many variables there are.
    size: u32,
}

impl Model for Cells {
    ghost use Rattle.std.specs.Prelude.{ℕ, List, take};
    ghost use Rattle.tta_tacrun.specs.Behind.{IsBehind};

    ghost Value = { List ℕ };

    ghost view = { λ c. take c.size c.words.items };

    ghost invariant = { λ c. IsBehind c.size c.words.items };
}

impl Cells {
    /// So many variables, each 0.
    pub fn zeros(alloc: Global, size: u32) -> Result<Self, AllocError>
        ensures { IfOk result (λ c. c ≡ replicate size 0) }
    {
        let words = vec![in alloc; 0; size as usize + 1]?;
        Ok(Cells { words, size })
    }

    /// How many variables there are.
    pub fn len(&self) -> u32
        ensures { result ≡ length self.now }
    {
        self.size
    }

    /// The word of a variable, or of the cell behind the last.
    #[inline(always)]
    pub fn at(&self, cell: u32) -> u32
        requires { cell ≤ length self.now }
        ensures { result ≡ slice_index self.now cell }
    {
        self.words[cell as usize]
    }

    /// A variable becomes a word.
    #[inline(always)]
    pub fn put(&mut self, d: u32, word: u32)
        requires { d < length self.old }
        ensures { self.new ≡ slice_set self.old d word }
    {
        self.words[d as usize] = word;
    }

    /// The word of a variable, and 0 where there is none.
    pub fn get(&self, i: usize) -> u32
        ensures { result ≡ slice_index self.now i }
    {
        match self.words.get(i) {
            Some(word) => *word,
            None => 0,
        }
    }

    /// A variable becomes a word. Where there is none, nothing changes.
    pub fn set(&mut self, i: usize, word: u32)
        ensures { self.new ≡ slice_set self.old i word }
    {
        if i < self.size as usize {
            self.words[i] = word;
        }
    }

    /// Makes each variable 0.
    pub fn clear(&mut self)
        ensures { self.new ≡ replicate (length self.old) 0 }
    {
        self.words.fill(0);
    }
}
