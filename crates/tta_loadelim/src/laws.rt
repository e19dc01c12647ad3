//! Laws of served reads. A law is a function that does nothing, and whose contract is the law.

ghost use Rattle.tta_loadelim.specs.Statement.{CopiesKeep, ServedAlike, ServedKeep, ThinnedKeep};

/// A list whose reads of slots are served by sources with the same words does the same.
pub fn served_alike()
    ensures { ServedAlike }
{}

/// A list with copies of words in registers that nothing reads keeps its meaning.
pub fn copies_keep()
    ensures { CopiesKeep }
{}

/// A list with served reads keeps the meaning from every state with the machine's frame.
pub fn served_keep()
    ensures { ServedKeep }
{}

/// A list without some stores into slots that it stores into again keeps its meaning.
pub fn thinned_keep()
    ensures { ThinnedKeep }
{}
