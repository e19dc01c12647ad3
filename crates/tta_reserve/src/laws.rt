//! A law of tables: a function that does nothing, and whose contract is the law.

ghost use Rattle.tta_reserve.specs.Laws.{BoundsKeepApart};

/// While no control item is placed, bounds keep the items of a cycle in places of their own.
pub fn bounds_keep_apart()
    ensures { BoundsKeepApart }
{}
