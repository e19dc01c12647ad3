//! Laws of assembly. A law is a function that does nothing, and whose contract is the law.

ghost use Rattle.tta_asm.specs.Laws.{ReadsBack, HasOneWhole, AssemblesLegal, ReadsTextBack};

/// A legal whole for a machine that stands over the set of units is read back from its canonical
/// text, so no two such wholes have one canonical text.
pub fn reads_back()
    ensures back { ReadsBack }
    ensures one { HasOneWhole }
{}

/// The whole of a text is legal. So it is read back from its canonical text.
pub fn assembles_legal()
    ensures legal { AssemblesLegal }
    ensures back { ReadsTextBack }
{}
