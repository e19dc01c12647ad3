//! Sets of buses, as the names of a line give them.

ghost use Rattle.std.specs.Prelude.{◌≡◌, ℕ, ◌<◌, List, ◌++◌, ◌∷◌, []};
ghost use Rattle.std.specs.Prelude.{IfSome, option_map};
ghost use Rattle.tta_parse.specs.Lines.{texts};
ghost use Rattle.tta_machine.specs.BusSets.{set_once};
ghost use Rattle.tta_machine.specs.Declarations.{buses_named};
ghost use Rattle.tta_machine.specs.Draft.{bus_named};
ghost use Rattle.tta_machine.specs.Kept.{IsDraft};

use crate::draft::Draft;
use tta_arch::bus_bit;
use tta_parse::Word;

impl Draft {
    /// The set of the buses of names, bit k for bus k: `None` where a name names no bus, and
    /// `Some(None)` where a bus stands twice.
    pub fn set_named(&self, names: &[Word]) -> Option<Option<u16>>
        requires { IsDraft self.now }
        ensures { result ≡ option_map set_once (buses_named self.now (texts names.now)) }
    {
        let mut set = Some(0);
        for name in names {
            let bus = self.bus_below(name.text)?;
            set = with_bus(set, bus);
        }
        Some(set)
    }

    /// The bus of a name, of which there are 16 at most.
    fn bus_below(&self, name: &[u8]) -> Option<u8>
        requires { IsDraft self.now }
        ensures value { result ≡ bus_named self.now name.now }
        ensures below { IfSome result (λ bus. bus < 16) }
    {
        self.bus_named(name)
    }
}

/// The set with one bus more, where it was not there.
fn with_bus(set: Option<u16>, bus: u8) -> Option<u16>
    requires { bus < 16 }
    ensures { (buses : List ℕ) → set ≡ set_once buses
        → result ≡ set_once (buses ++ bus ∷ []) }
{
    let Some(mask) = set else {
        return None;
    };
    let bit = bus_bit(usize::from(bus));
    if mask & bit == 0 {
        Some(mask | bit)
    } else {
        None
    }
}
