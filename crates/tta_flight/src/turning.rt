//! A region's next cycle.

ghost use Rattle.std.specs.Prelude.{◌≡◌, ◌<◌, ◌≤◌, ◌+◌, ◌*◌, ◌/◌, ◌%◌, ◌^◌, ℕ, true, length, None};
ghost use Rattle.std.specs.Int.{bit_at};
ghost use Rattle.tta_flight.specs.Flight.{Flight, advanced, StandsFor, AdvancesAll, StayBeside};
ghost use Rattle.tta_flight.specs.Rings.{IsAdvanced, IsTurned, AdvancesWord, EndsWord};
ghost use Rattle.tta_flight.specs.Rings.{IsCome, HaveCome, AreAllOver, due_in, later_in};

use crate::marked::{Marked, bits_of_units, bits_of_word, least_bit, without_bit};
use crate::region::Region;

impl Region {
    /// Turns a unit's ring, and answers what it has for the next cycle.
    #[inline(always)]
    fn take(&mut self, unit: usize) -> Option<u32>
        requires { unit < length self.old.rings }
        ensures taken { result ≡ due_in self.old unit 1 }
        ensures turned { IsTurned unit self.old self.new }
    {
        let ring = self.ring(unit);
        let next = ring.next();
        let due = self.cells[next];
        self.cells[next] = None;
        self.rings[unit].turn();
        self.moving.remove_if(unit, ring.turns <= 1);
        due
    }

    /// Lets what is to come of a unit be one cycle nearer. Where nothing is due of it at this moment,
    /// it goes to its next cycle.
    #[inline(always)]
    fn step(&mut self, unit: usize)
        requires { unit < length self.old.rings }
        ensures come { IsCome unit self.old self.new }
        ensures advanced { due_in self.old unit 0 ≡ None → IsAdvanced unit 1 self.old self.new }
    {
        if let Some(value) = self.take(unit) {
            self.show(unit, value);
        }
    }

    /// Those of these bits of 64 units, from unit `64 * number` on, whose rings have to turn. Nothing
    /// is due of the others after this moment.
    #[inline(always)]
    fn word(&self, number: usize, among: u64) -> u64
        requires { number < 4 }
        ensures none { (unit past : ℕ) → unit < length self.now.rings → unit / 64 ≡ number
            → bit_at among (unit % 64) ≡ 1 → bit_at result (unit % 64) ≡ 0
            → later_in self.now unit past ≡ None }
        ensures some { (i : ℕ) → bit_at result i ≡ 1 → bit_at among i ≡ 1 }
    {
        self.moving.bits_in(number, among)
    }

    /// Lets what is due at this moment be over, of those of 64 units, from unit `64 * number` on,
    /// that have one of these bits.
    #[inline(always)]
    fn pass(&mut self, number: usize, among: u64)
        requires { number < 4 }
        ensures units { length self.new.rings ≡ length self.old.rings }
        ensures none { (unit : ℕ) → unit / 64 ≡ number → bit_at among (unit % 64) ≡ 1
            → due_in self.new unit 0 ≡ None }
        ensures over { EndsWord number among self.old self.new }
    {
        self.fresh.remove_bits(number, among);
    }

    /// Goes to the next cycle of those of 64 units, from unit `64 * number` on, that have one of
    /// these bits, where nothing is due of them at this moment. Where nothing is coming, it looks at
    /// no ring.
    #[inline(always)]
    fn turn(&mut self, number: usize, among: u64)
        requires word { number < 4 }
        requires there { (unit : ℕ) → unit / 64 ≡ number → bit_at among (unit % 64) ≡ 1
            → unit < length self.old.rings }
        requires over { (unit : ℕ) → unit / 64 ≡ number → bit_at among (unit % 64) ≡ 1
            → due_in self.old unit 0 ≡ None }
        ensures { AdvancesWord number among self.old self.new }
    {
        let first = 64 * number;
        let mut left = self.word(number, among);
        let mut at = first;
        'bits: while left != 0 {
            let bit = least_bit(left);
            self.step(first + bit);
            at = first + bit + 1;
            left = without_bit(left, bit);
        }
    }

    /// Goes to the next cycle of those of 64 units, from unit `64 * number` on, that have one of
    /// these bits.
    #[inline(always)]
    fn walk(&mut self, number: usize, among: u64)
        requires word { number < 4 }
        requires there { (unit : ℕ) → unit / 64 ≡ number → bit_at among (unit % 64) ≡ 1
            → unit < length self.old.rings }
        ensures { AdvancesWord number among self.old self.new }
    {
        self.pass(number, among);
        self.turn(number, among);
    }

    /// Goes to the next cycle of so many units from one on, word by word of the set.
    #[inline(always)]
    fn steps(&mut self, base: usize, count: usize)
        requires there { base + count ≤ length self.old.rings }
        requires few { base + count < 2 ^ 64 }
        ensures { IsAdvanced base count self.old self.new }
    {
        // So that it is known here that a region has 256 units at most.
        let _ = self.units();
        let end = base + count;
        let mut number = base / 64;
        'words: while 64 * number < end {
            self.walk(number, bits_of_word(number, base, end));
            number += 1;
        }
    }

    /// Goes to the next cycle of so many units from one on. Where one word of the set has them all,
    /// it makes no loop over words.
    #[inline(always)]
    fn go(&mut self, base: usize, count: usize)
        requires there { base + count ≤ length self.old.rings }
        requires few { base < 256 }
        requires some { count < 256 }
        ensures { IsAdvanced base count self.old self.new }
    {
        if base % 64 + count < 64 {
            self.walk(base / 64, bits_of_units(base, count));
            return;
        }
        self.steps(base, count);
    }

    /// Whether nothing is to come of any unit, of 63 at most. It may say no where that is so.
    #[inline(always)]
    pub fn is_still(&self) -> bool
        requires { length self.now.rings < 64 }
        ensures { result ≡ true → (unit past : ℕ) → unit < length self.now.rings
            → later_in self.now unit past ≡ None }
    {
        self.word(0, u64::MAX) == 0
    }

    /// Lets what is due at this moment be over, of every unit.
    #[inline(always)]
    pub fn pass_all(&mut self)
        ensures { AreAllOver self.old self.new }
    {
        self.fresh = Marked::none();
    }

    /// Lets what is to come of every unit, of 63 at most, be one cycle nearer. What comes shows. What
    /// is due at this moment is not over by that.
    #[inline(always)]
    pub fn come_all(&mut self)
        requires { length self.old.rings < 64 }
        ensures { HaveCome (length self.old.rings) self.old self.new }
    {
        let mut left = self.word(0, bits_of_units(0, self.units()));
        let mut at = 0;
        'bits: while left != 0 {
            let bit = least_bit(left);
            self.step(bit);
            at = bit + 1;
            left = without_bit(left, bit);
        }
    }

    /// Goes to the next cycle.
    pub fn advance(&mut self)
        ensures held { IsAdvanced 0 (length self.old.rings) self.old self.new }
        ensures same { (f : Flight) → StandsFor f self.old
            → StandsFor (advanced 0 (length self.old.rings) f) self.new }
    {
        let count = self.units();
        self.steps(0, count);
    }

    /// Goes to the next cycle of so many units from one on. Every other unit stays.
    #[inline(always)]
    pub fn advance_units(&mut self, base: u8, count: u8)
        requires { base + count ≤ length self.old.rings }
        ensures held { IsAdvanced base count self.old self.new }
        ensures same { (f : Flight) → StandsFor f self.old
            → StandsFor (advanced base count f) self.new }
        ensures part { AdvancesAll base count self.old self.new }
        ensures beside { StayBeside base count self.old self.new }
    {
        self.go(usize::from(base), usize::from(count));
    }
}
