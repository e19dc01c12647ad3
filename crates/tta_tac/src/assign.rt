//! The forms of assignments: what stands after `d =`.

ghost use Rattle.std.specs.Prelude.{◌≡◌, [], ◌∷◌, true, false, map, option_map, codes};
ghost use Rattle.tta_parse.specs.Lines.{plain};
ghost use Rattle.tta_parse.specs.Words.{is_keyword};
ghost use Rattle.tta_tac.specs.Forms as spec;
ghost use Rattle.tta_tac.specs.Seen.{form_seen};

use crate::calls::call_form;
use crate::forms::{Form, Operands};
use crate::pieces::{free_name, operand_of};
use tta_parse::Word;

/// `d = s`, `d = in`, `d = load a`, `d = call NAME s ..`, `d = OPERATION b` and `d = OPERATION a b`, after
/// the equals sign.
#[tactic(auto, unfolding(crate::specs::Forms::assign_form))]
pub fn assign_form<'w, 't>(d: &'t [u8], words: &'w [Word<'t>]) -> Option<Form<'w, 't>>
    ensures { option_map form_seen result ≡ spec.assign_form d.now (map plain words.now) }
{
    match words {
        [s] => {
            if s.is_keyword(b"in") {
                return Some(Form::Take { d });
            }
            let s = operand_of(s)?;
            Some(Form::Copy { d, s })
        }
        [key, a, others @ ..] => {
            if key.is_keyword(b"call") {
                call_form(Some(d), &words[1..])
            } else if key.is_keyword(b"load") {
                load_form(d, key, a, others)
            } else {
                apply_form(d, key, a, others)
            }
        }
        _ => None,
    }
}

/// `d = load a`
#[tactic(auto, unfolding(crate::specs::Forms::assign_form))]
fn load_form<'w, 't>(
    d: &'t [u8],
    key: &Word<'t>,
    a: &Word<'t>,
    others: &[Word],
) -> Option<Form<'w, 't>>
    requires no_call { is_keyword (codes "call") (plain key.now) ≡ false }
    requires load { is_keyword (codes "load") (plain key.now) ≡ true }
    ensures { option_map form_seen result
        ≡ spec.assign_form d.now (plain key.now ∷ plain a.now ∷ map plain others.now) }
{
    match others {
        [] => {
            let a = operand_of(a)?;
            Some(Form::Load { d, a })
        }
        _ => None,
    }
}

/// `d = OPERATION b` and `d = OPERATION a b`
#[tactic(auto, unfolding(crate::specs::Forms::assign_form))]
fn apply_form<'w, 't>(
    d: &'t [u8],
    key: &Word<'t>,
    a: &Word<'t>,
    others: &[Word<'t>],
) -> Option<Form<'w, 't>>
    requires no_call { is_keyword (codes "call") (plain key.now) ≡ false }
    requires no_load { is_keyword (codes "load") (plain key.now) ≡ false }
    ensures { option_map form_seen result
        ≡ spec.assign_form d.now (plain key.now ∷ plain a.now ∷ map plain others.now) }
{
    match others {
        [] => match (free_name(key), operand_of(a)) {
            (Some(op), Some(b)) => {
                let operands = Operands::One(b);
                Some(Form::Apply { d, op, operands })
            }
            _ => None,
        },
        [b] => match (free_name(key), operand_of(a), operand_of(b)) {
            (Some(op), Some(a), Some(b)) => {
                let operands = Operands::Two(a, b);
                Some(Form::Apply { d, op, operands })
            }
            _ => None,
        },
        _ => None,
    }
}
