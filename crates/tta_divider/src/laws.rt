//! Laws of dividers. A law is a function that does nothing, and whose contract is the law.

ghost use Rattle.tta_divider.specs.Laws.{DividerIsSaid, DividerServes, DividesAtOnce};

/// A divider with registers behind one stage or more shows at each clock the quotient or the remainder of the words that
/// it was given as many enabled clocks before, whatever it held at first, and whatever the divisor.
pub fn divider_serves()
    ensures { DividerServes }
{}

/// A divider without registers shows at each clock that of the words that it is given at that clock.
pub fn divides_at_once()
    ensures { DividesAtOnce }
{}

/// A text can say a divider as it stands, and without functions.
pub fn divider_is_said()
    ensures { DividerIsSaid }
{}
