//! Where variables are met first, as positions are walked through.

ghost use Rattle.std.specs.Prelude.{◌≡◌, ◌==◌, ◌&&◌, ◌+◌, ◌*◌, ◌/◌, ◌<◌, ◌≤◌, ℕ, None, length, IfOk};
ghost use Rattle.tta_alloc.specs.Meetings.{met, Meets, IsSound, within};
ghost use Rattle.tta_flow.specs.Bits.{has};

use std::alloc::{AllocError, Global};
use tta_flow::BitRow;

/// For each variable the position at which it was met first. The row has only variables that were
/// met: of a word of it that has all of another row, nothing is to be done.
#[derive(Drop)]
pub struct Seen {
    pub places: Vec<Option<u32>>,
    pub seen: BitRow,
}

impl Seen {
    /// So many variables, none of which was met.
    pub fn new(alloc: Global, vars: u32) -> Result<Self, AllocError>
        ensures size { IfOk result (λ m. length m.places.items ≡ vars) }
        ensures sound { IfOk result (λ m. IsSound m) }
        ensures none { IfOk result (λ m. (x : ℕ) → x < vars → met m x ≡ None) }
    {
        Ok(Seen {
            places: vec![in alloc; None; vars as usize]?,
            seen: BitRow::new(alloc, vars as usize)?,
        })
    }

    /// The position at which a variable was met first, if it was met.
    pub fn place(&self, x: u32) -> Option<u32>
        ensures { result ≡ met self.now x }
    {
        if (x as usize) < self.places.len() {
            self.places[x as usize]
        } else {
            None
        }
    }

    /// Meets the variables of a row at a position.
    pub fn meet(&mut self, row: &BitRow, at: u32)
        requires { IsSound self.old }
        ensures { Meets (has row.now) at self.old self.new }
    {
        for word in 0..self.places.len() / 64 + 1 {
            self.meet_new(row, word, at);
        }
    }

    /// Meets the variables of a word of a row, unless all were met.
    fn meet_new(&mut self, row: &BitRow, word: usize, at: u32)
        requires sound { IsSound self.old }
        requires there { word ≤ length self.old.places.items / 64 }
        ensures { Meets (λ x. within (word * 64) (word * 64 + 64) x && has row.now x) at
            self.old self.new }
    {
        if !self.seen.covers_word(row, word) {
            self.meet_word(row, word, at);
        }
    }

    /// Meets the variables of a word of a row.
    fn meet_word(&mut self, row: &BitRow, word: usize, at: u32)
        requires sound { IsSound self.old }
        requires there { word ≤ length self.old.places.items / 64 }
        ensures { Meets (λ x. within (word * 64) (word * 64 + 64) x && has row.now x) at
            self.old self.new }
    {
        for bit in 0..64 {
            let x = word * 64 + bit;
            self.meet_if(x, at, row.get(x));
        }
    }

    /// Meets a variable, where that is wanted and it is there.
    fn meet_if(&mut self, x: usize, at: u32, wanted: bool)
        requires { IsSound self.old }
        ensures { Meets (λ k. wanted && x == k) at self.old self.new }
    {
        if wanted && x < self.places.len() {
            self.meet_one(x, at);
        }
    }

    /// Meets a variable.
    fn meet_one(&mut self, x: usize, at: u32)
        requires sound { IsSound self.old }
        requires there { x < length self.old.places.items }
        ensures { Meets (λ k. x == k) at self.old self.new }
    {
        if self.places[x].is_none() {
            self.places[x] = Some(at);
            self.seen.set(x);
        }
    }
}
