//! Laws of first fits. A law is a function that does nothing, and whose contract is the law.

ghost use Rattle.tta_sched.specs.Room.{FitsAfter, FirstFitHasRoom};

/// An item that has a slot fits in a cycle after all items that are placed.
pub fn fits_after()
    ensures { FitsAfter }
{}

/// A first fit takes few cycles.
pub fn first_fit_has_room()
    ensures { FirstFitHasRoom }
{}
