//! The declaration of a unit.

ghost use Rattle.std.specs.Prelude.{map};
ghost use Rattle.tta_parse.specs.Lines.{plain};
ghost use Rattle.tta_parse.specs.Taken.{Takes};
ghost use Rattle.tta_machine.specs.Forms.{unit_form};
ghost use Rattle.tta_machine.specs.Declarations.{take_unit};
ghost use Rattle.tta_machine.specs.Seen.{formed};

use crate::draft::{Draft, Named};
use crate::limits::{MOST_UNITS, is_too_long};
use crate::lookups::add_part;
use crate::refusal::{LineError, Refusal};
use crate::syntax;
use std::alloc::Global;
use tta_arch::Unit;
use tta_list::{Items, Name};
use tta_parse::Word;

impl Draft {
    /// Takes a unit, without operations, by the words after `unit`. It is refused as `Syntax`
    /// where they have another form, as `Unknown` where the socket of one of its ports is not there
    /// in the port's direction, as `Twice` where its name is taken, and as `Range` where its name
    /// is too long or 32 units are there.
    #[tactic(auto, unfolding(crate::specs::Declarations::take_unit))]
    pub fn take_unit(&mut self, alloc: Global, words: &[Word]) -> Result<(), LineError>
        ensures { Takes self.new result
            (formed (unit_form (map plain words.now)) (take_unit self.old)) }
    {
        let Some(form) = syntax::unit_form(words) else {
            return Err(LineError::Refused(Refusal::Syntax));
        };
        let operand = self.port_named(true, form.operand);
        let trigger = self.socket_named(true, form.trigger);
        let result = self.port_named(false, form.result);
        let (Some(operand), Some(trigger), Some(result)) = (operand, trigger, result) else {
            return Err(LineError::Refused(Refusal::Unknown));
        };
        if self.is_taken(form.name) {
            return Err(LineError::Refused(Refusal::Twice));
        }
        if is_too_long(form.name) || self.units.len() >= MOST_UNITS {
            return Err(LineError::Refused(Refusal::Range));
        }
        let place = Named::Unit(self.units.len() as u8);
        let Ok(name) = Name::new(alloc, form.name) else {
            return Err(LineError::NoMemory);
        };
        let unit = Unit {
            name,
            operand,
            trigger,
            result,
            ops: Items::new(alloc),
        };
        add_part(
            alloc,
            &mut self.names,
            &mut self.units,
            form.name,
            place,
            unit,
        )
    }
}
