//! The results of units.

ghost use Rattle.std.specs.Prelude.{◌≡◌, ◌<◌, is_some};
ghost use Rattle.tta_sim.specs.Results.{results_at, AreThere, shown_by, due_by};

use std::marker::Model;
use tta_flight::Region;

/// So many units of a region, from one on: those of one machine.
#[derive(Clone, Copy)]
pub struct Part {
    pub base: u8,
    pub count: u8,
}

/// The results of the units of one machine: those that show, and those that are still to come.
#[derive(Drop)]
pub struct Results<'a> {
    region: &'a Region,
    part: Part,
}

impl<'a> Model for Results<'a> {
    ghost use Rattle.tta_sim.specs.Results.{Results, results_at, AreThere};

    ghost Value = { Results };

    ghost view = { λ r. results_at r.part r.region.now };

    ghost invariant = { λ r. AreThere (results_at r.part r.region.now) };
}

impl<'a> Results<'a> {
    /// The results of these units of a region.
    pub fn of(region: &'a Region, part: Part) -> Results<'a>
        requires { AreThere (results_at part region.now) }
        ensures { result ≡ results_at part region.now }
    {
        Results { region, part }
    }

    /// The same results once more.
    #[inline(always)]
    pub fn reborrow(&self) -> Results<'a>
        ensures { result ≡ self.now }
    {
        Results::of(self.region, self.part)
    }

    /// The word on a unit's result port.
    #[inline(always)]
    pub fn port(&self, unit: u8) -> Option<u32>
        requires { unit < self.now.units }
        ensures { result ≡ shown_by self.now unit }
    {
        self.region.port(self.part.base + unit)
    }

    /// Whether a result of the unit is due `latency` cycles from now.
    #[inline(always)]
    pub fn clashes(&self, unit: u8, latency: u8) -> bool
        requires { unit < self.now.units }
        ensures { result ≡ is_some (due_by self.now unit latency) }
    {
        self.region.clash(self.part.base + unit, latency)
    }
}
