//! What a session at a prompt has in common with one of a script.

ghost use Rattle.tta_prompt.specs.Laws.{AsInScripts};

/// Lines that ask nothing that a script cannot are answered as in a script.
#[tactic(auto, using(crate::proofs::Alike::as_in_scripts))]
pub fn as_in_scripts()
    ensures { AsInScripts }
{}
