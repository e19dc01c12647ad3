//! A law of pictures. A law is a function that does nothing, and whose contract is the law.

ghost use Rattle.tta_draw.specs.Laws.{NamesArePlain};

/// The names that stand in a picture have no byte that XML would read otherwise, so they need no
/// escape. All else in a picture is constant, or a number.
#[tactic(auto, using(crate::proofs::Plain::names_are_plain))]
pub fn names_are_plain()
    ensures { NamesArePlain }
{}
