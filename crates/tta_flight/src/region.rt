//! A region of rings.

ghost use Rattle.std.specs.Prelude.{◌≡◌, ◌<◌, ◌≤◌, ◌+◌, ℕ, [], length, None, is_some, IfOk};
ghost use Rattle.std.specs.Prelude.{slice_index_or};
ghost use Rattle.tta_flight.specs.Flight.{Flight, started, port_of, due_of, StandsFor, StartsAmong};
ghost use Rattle.tta_flight.specs.Rings.{IsStarted, ring_of};
ghost use Rattle.tta_flight.specs.Rings.{longest_of, due_in, later_in, shown_in, place_of};

use crate::marked::Marked;
use crate::ring::{Ring, carve, empty, size};
use std::alloc::{AllocError, Global};
use std::marker::Model;

/// The results of units: those that show, and those that are still to come.
///
/// Each unit has a ring of cells, one for each cycle to come. No time is kept: a cycle turns the rings
/// that have a result.
#[derive(Drop)]
pub struct Region {
    pub(crate) rings: Vec<Ring>,
    /// The cells of all rings.
    pub(crate) cells: Vec<Option<u32>>,
    /// The units whose rings have a result, and so have to turn.
    pub(crate) moving: Marked,
    /// The units of which a result is due at this very moment: it is the one that shows.
    pub(crate) fresh: Marked,
}

impl Model for Region {
    ghost use Rattle.tta_flight.specs.Rings.{Rings, IsRegion, rings_of};

    ghost Value = { Rings };

    ghost view = { λ r. rings_of r.rings.items r.cells.items r.moving r.fresh };

    ghost invariant = { λ r. IsRegion (rings_of r.rings.items r.cells.items r.moving r.fresh) };
}

impl Region {
    /// The region of so many units, where these are their longest delays: nothing was started.
    ///
    /// It takes all the memory that the later calls need.
    pub fn new(alloc: Global, longest: &[u8]) -> Result<Self, AllocError>
        requires { length longest.now ≤ 256 }
        ensures units { IfOk result (λ r. length r.rings ≡ length longest.now) }
        ensures longest { IfOk result (λ r. (unit : ℕ)
            → longest_of r unit ≡ slice_index_or longest.now unit 0) }
        ensures none { IfOk result (λ r. (moment : ℕ → ℕ)
            → StandsFor (record { started = []; moment = moment }) r) }
    {
        let rings = carve(alloc, longest)?;
        let cells = empty(alloc, size(longest))?;
        Ok(Region {
            rings,
            cells,
            moving: Marked::none(),
            fresh: Marked::none(),
        })
    }

    /// How many units there are.
    pub(crate) fn units(&self) -> usize
        ensures all { result ≡ length self.now.rings }
        ensures few { result ≤ 256 }
    {
        self.rings.len()
    }

    /// The ring of a unit.
    #[inline(always)]
    pub(crate) fn ring(&self, unit: usize) -> Ring
        requires { unit < length self.now.rings }
        ensures ring { result ≡ ring_of self.now unit }
        ensures at { result.at ≤ result.longest }
        ensures within { result.first + result.longest < length self.now.cells }
        ensures few { result.first + result.longest < 65536 }
        ensures none { (past : ℕ) → result.turns ≤ past → later_in self.now unit past ≡ None }
    {
        self.rings[unit]
    }

    /// The cell of what is due of a unit so many cycles after the next one.
    #[inline(always)]
    fn place(&self, unit: u8, past: u8) -> usize
        requires unit { unit < length self.now.rings }
        requires soon { past ≤ longest_of self.now unit }
        ensures place { result ≡ place_of (ring_of self.now unit) past }
        ensures there { result < length self.now.cells }
    {
        self.ring(usize::from(unit)).place(past)
    }

    /// What is due of a unit at this very moment.
    #[inline(always)]
    fn fresh(&self, unit: u8) -> Option<u32>
        requires { unit < length self.now.rings }
        ensures { result ≡ due_in self.now unit 0 }
    {
        if !self.fresh.has(usize::from(unit)) {
            return None;
        }
        self.rings[usize::from(unit)].shown
    }

    /// What is due of a unit so many cycles after the next one. Nothing is due later than so many
    /// cycles after it as its longest delay.
    #[inline(always)]
    fn coming(&self, unit: u8, past: u8) -> Option<u32>
        requires { unit < length self.now.rings }
        ensures { result ≡ later_in self.now unit past }
    {
        let ring = self.ring(usize::from(unit));
        if ring.turns <= u16::from(past) {
            return None;
        }
        if past > ring.longest {
            return None;
        }
        self.cells[ring.place(past)]
    }

    /// Whether a result of the unit is due in so many cycles.
    #[inline(always)]
    pub fn clash(&self, unit: u8, delay: u8) -> bool
        requires { unit < length self.now.rings }
        ensures held { result ≡ is_some (due_in self.now unit delay) }
        ensures clash { (f : Flight) → StandsFor f self.now
            → result ≡ is_some (due_of f unit delay) }
    {
        self.due(unit, delay).is_some()
    }

    /// Adds a result that is due at once, and so shows.
    #[inline(always)]
    pub(crate) fn show(&mut self, unit: usize, value: u32)
        requires { unit < length self.old.rings }
        ensures { IsStarted unit 0 value self.old self.new }
    {
        self.rings[unit].show(value);
        self.fresh.add(unit);
    }

    /// Adds a result that is due so many cycles after the next one.
    #[inline(always)]
    fn expect(&mut self, unit: u8, past: u8, value: u32)
        requires unit { unit < length self.old.rings }
        requires soon { past ≤ longest_of self.old unit }
        ensures { IsStarted unit (past + 1) value self.old self.new }
    {
        let cell = self.place(unit, past);
        let at = usize::from(unit);
        self.cells[cell] = Some(value);
        self.rings[at].expect(past);
        self.moving.add(at);
    }

    /// Adds a result that is due in so many cycles. Where it is due at once, it shows. Every other
    /// unit and every other due stays.
    #[inline(always)]
    pub fn start(&mut self, unit: u8, delay: u8, value: u32)
        requires unit { unit < length self.old.rings }
        requires soon { delay ≤ longest_of self.old unit }
        requires free { due_in self.old unit delay ≡ None }
        ensures held { IsStarted unit delay value self.old self.new }
        ensures same { (f : Flight) → StandsFor f self.old
            → StandsFor (started unit delay value f) self.new }
        ensures part { StartsAmong unit delay value self.old self.new }
    {
        if delay == 0 {
            self.show(usize::from(unit), value);
        } else {
            self.expect(unit, delay - 1, value);
        }
    }

    /// The word on a unit's result port, `None` where no result was due yet.
    #[inline(always)]
    pub fn port(&self, unit: u8) -> Option<u32>
        requires { unit < length self.now.rings }
        ensures held { result ≡ shown_in self.now unit }
        ensures port { (f : Flight) → StandsFor f self.now → result ≡ port_of f unit }
    {
        self.rings[usize::from(unit)].shown
    }

    /// The result of a unit that is due in so many cycles, `None` where none is.
    #[inline(always)]
    pub fn due(&self, unit: u8, delay: u8) -> Option<u32>
        requires { unit < length self.now.rings }
        ensures held { result ≡ due_in self.now unit delay }
        ensures due { (f : Flight) → StandsFor f self.now → result ≡ due_of f unit delay }
    {
        if delay == 0 {
            return self.fresh(unit);
        }
        self.coming(unit, delay - 1)
    }
}
