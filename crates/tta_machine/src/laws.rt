//! Laws of machine texts. A law is a function that does nothing, and whose contract is the law.

ghost use Rattle.std.specs.Prelude.{◌≡◌, ℕ, List, Ok};
ghost use Rattle.tta_ops.specs.Units.{Units};
ghost use Rattle.tta_arch.specs.Machine.{Machine};
ghost use Rattle.tta_arch.specs.Rules.{IsMachine};
ghost use Rattle.tta_arch.specs.Over.{StandsOver};
ghost use Rattle.tta_machine.specs.Text.{machine_of_text};

/// What a text is read as keeps every rule of machines, and stands over the set of units that the
/// text is read with.
pub fn texts_are_machines()
    ensures machine { (u : Units) (text : List ℕ) (m : Machine)
        → machine_of_text u text ≡ Ok m → IsMachine m }
    ensures over { (u : Units) (text : List ℕ) (m : Machine)
        → machine_of_text u text ≡ Ok m → StandsOver u m }
{}
