//! The form of calls.

ghost use Rattle.std.specs.Prelude.{◌≡◌, map, option_map};
ghost use Rattle.tta_parse.specs.Lines.{plain};
ghost use Rattle.tta_tac.specs.Forms as spec;
ghost use Rattle.tta_tac.specs.Seen.{form_seen};

use crate::forms::Form;
use crate::pieces::{free_name, operands_alone};
use tta_parse::Word;

/// `call NAME s ..`, after a destination or without one.
#[tactic(auto, unfolding(crate::specs::Forms::call_form))]
pub fn call_form<'w, 't>(d: Option<&'t [u8]>, words: &'w [Word<'t>]) -> Option<Form<'w, 't>>
    ensures { option_map form_seen result
        ≡ spec.call_form (option_map (λ n. n.now) d.entry) (map plain words.now) }
{
    match words {
        [callee, args @ ..] => {
            let callee = free_name(callee)?;
            let args = operands_alone(args)?;
            Some(Form::Call { d, callee, args })
        }
        _ => None,
    }
}
