//! What is known of a line.

ghost use Rattle.std.specs.Prelude.{◌≡◌, true};
ghost use Rattle.tta_sim.specs.Results.{results_at, shown_by, AreThere};
ghost use Rattle.tta_sim.specs.Lines.{IsLineThere};
ghost use Rattle.tta_sim.specs.Known.{mark_of, IsMarked};

use crate::decoded::Line;
use crate::known::is_settled;
use crate::order::is_in_order;
use crate::places::Places;
use crate::results::Part;
use tta_flight::Region;

/// What is known of a line that is to be carried out in place.
#[derive(Clone, Copy, Debug)]
pub enum Mark {
    /// Its moves cannot be carried out one after another.
    Apart,
    /// They can.
    Ordered,
    /// They can, and all words that they take are set.
    Settled,
}

impl Mark {
    /// The mark of a line at the begin of a run.
    pub fn of(line: &Line) -> Mark
        ensures { result ≡ mark_of line.now }
    {
        if is_in_order(line) {
            Mark::Ordered
        } else {
            Mark::Apart
        }
    }

    /// Whether it says that all words are set that its line takes.
    #[inline(always)]
    pub fn is_settled(self) -> bool
        ensures { result ≡ true → self ≡ Mark.Settled }
    {
        matches!(self, Mark::Settled)
    }

    /// Notes that all words are set which its line takes, once it is so.
    #[inline(always)]
    pub fn settle(&mut self, places: &Places, region: &Region, part: Part, line: &Line)
        requires are { AreThere (results_at part region.now) }
        requires there { IsLineThere part.count line.now }
        requires marked { let shown = shown_by (results_at part region.now) in
            IsMarked places.now shown line.now self.old }
        ensures marked { let shown = shown_by (results_at part region.now) in
            IsMarked places.now shown line.now self.new }
    {
        if let Mark::Ordered = *self
            && is_settled(places, region, part, line)
        {
            *self = Mark::Settled;
        }
    }
}
