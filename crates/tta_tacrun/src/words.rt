//! A row of words.

ghost use Rattle.std.specs.Prelude.{◌≡◌, slice_index, slice_set};

use std::marker::Model;

/// Words that are read as 0 past their end, where a write changes nothing.
#[derive(Drop)]
pub struct Words {
    words: Vec<u32>,
}

impl Model for Words {
    ghost use Rattle.std.specs.Prelude.{ℕ, List};

    ghost Value = { List ℕ };

    ghost view = { λ w. w.words.items };
}

impl Words {
    /// These words.
    pub fn of(words: Vec<u32>) -> Self
        ensures { result ≡ words.items }
    {
        Words { words }
    }

    /// All words, in order.
    pub fn as_slice(&self) -> &[u32]
        ensures { result.now ≡ self.now }
    {
        self.words.as_slice()
    }

    /// The word at a place, and 0 past the end.
    pub fn get(&self, i: usize) -> u32
        ensures { result ≡ slice_index self.now i }
    {
        match self.words.get(i) {
            Some(word) => *word,
            None => 0,
        }
    }

    /// Puts a word at a place; past the end it does nothing.
    pub fn set(&mut self, i: usize, word: u32)
        ensures { self.new ≡ slice_set self.old i word }
    {
        if i < self.words.len() {
            self.words[i] = word;
        }
    }
}
