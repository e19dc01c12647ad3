//! What holds of every page.

ghost use Rattle.tta_play.specs.Statement.{PagesAreSmall};

/// Every page has 8 MiB at most.
pub fn pages_are_small()
    ensures { PagesAreSmall }
{}
