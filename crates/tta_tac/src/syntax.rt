//! The forms of a program text's lines: which words a line is made of.
//!
//! Each function takes the words of a line after those that chose the form, and gives what they
//! say, or `None` where the words are not of the form. Whether a name is known is not judged here.

ghost use Rattle.std.specs.Prelude.{◌≡◌, map, option_map, Some};
ghost use Rattle.tta_parse.specs.Lines.{plain};
ghost use Rattle.tta_parse.specs.Steps.{◌>>?◌};
ghost use Rattle.tta_tac.specs.Forms as spec;
ghost use Rattle.tta_tac.specs.Seen.{form_seen};

use crate::assign::assign_form;
use crate::calls::call_form;
use crate::forms::Form;
use crate::pieces::{free_name, names_alone, operand_of, rel_of};
use tta_parse::Word;

/// What a line says, by its first word and the words after it; `None` where it is none of the
/// forms.
#[tactic(auto, unfolding(crate::specs::Forms::form_of))]
pub fn form_of<'w, 't>(key: &Word<'t>, words: &'w [Word<'t>]) -> Option<Form<'w, 't>>
    ensures { option_map form_seen result ≡ spec.form_of (plain key.now) (map plain words.now) }
{
    if key.is_keyword(b"proc") {
        proc_form(words)
    } else if key.is_keyword(b"data") {
        data_form(words)
    } else if key.is_keyword(b"store") {
        store_form(words)
    } else if key.is_keyword(b"out") {
        put_form(words)
    } else if key.is_keyword(b"if") {
        if_form(words)
    } else if key.is_keyword(b"goto") {
        goto_form(words)
    } else if key.is_keyword(b"when") {
        when_form(words)
    } else if key.is_keyword(b"call") {
        call_form(None, words)
    } else if key.is_keyword(b"return") {
        return_form(words)
    } else if key.is_keyword(b"halt") {
        alone_form(Form::Halt, words)
    } else if key.is_keyword(b"end") {
        alone_form(Form::End, words)
    } else {
        named_form(key, words)
    }
}

/// `proc NAME x ..`
#[tactic(auto, unfolding(crate::specs::Forms::proc_form))]
fn proc_form<'w, 't>(words: &'w [Word<'t>]) -> Option<Form<'w, 't>>
    ensures { option_map form_seen result ≡ spec.proc_form (map plain words.now) }
{
    match words {
        [name, params @ ..] => {
            let name = free_name(name)?;
            let params = names_alone(params)?;
            Some(Form::Proc { name, params })
        }
        _ => None,
    }
}

/// `data A V`
#[tactic(auto, unfolding(crate::specs::Forms::data_form))]
fn data_form<'w, 't>(words: &'w [Word<'t>]) -> Option<Form<'w, 't>>
    ensures { option_map form_seen result ≡ spec.data_form (map plain words.now) }
{
    match words {
        [address, value] => {
            let address = address.value()?;
            let value = value.constant()?;
            Some(Form::Data { address, value })
        }
        _ => None,
    }
}

/// `store a v`
#[tactic(auto, unfolding(crate::specs::Forms::store_form))]
fn store_form<'w, 't>(words: &'w [Word<'t>]) -> Option<Form<'w, 't>>
    ensures { option_map form_seen result ≡ spec.store_form (map plain words.now) }
{
    match words {
        [a, v] => {
            let a = operand_of(a)?;
            let v = operand_of(v)?;
            Some(Form::Store { a, v })
        }
        _ => None,
    }
}

/// `out v`
#[tactic(auto, unfolding(crate::specs::Forms::put_form))]
fn put_form<'w, 't>(words: &'w [Word<'t>]) -> Option<Form<'w, 't>>
    ensures { option_map form_seen result ≡ spec.put_form (map plain words.now) }
{
    match words {
        [v] => {
            let v = operand_of(v)?;
            Some(Form::Put { v })
        }
        _ => None,
    }
}

/// `if REL a b goto NAME`
#[tactic(auto, unfolding(crate::specs::Forms::if_form))]
fn if_form<'w, 't>(words: &'w [Word<'t>]) -> Option<Form<'w, 't>>
    ensures { option_map form_seen result ≡ spec.if_form (map plain words.now) }
{
    match words {
        [rel, a, b, goto, label] => {
            if goto.is_keyword(b"goto") {
                branch_of(rel, a, b, label)
            } else {
                None
            }
        }
        _ => None,
    }
}

/// A branch where a condition holds.
fn branch_of<'w, 't>(
    rel: &Word<'t>,
    a: &Word<'t>,
    b: &Word<'t>,
    label: &Word<'t>,
) -> Option<Form<'w, 't>>
    ensures { option_map form_seen result ≡ (spec.rel_of (plain rel.now) >>? λ rel.
        spec.operand_of (plain a.now) >>? λ left. spec.operand_of (plain b.now) >>? λ right.
        spec.free_name (plain label.now) >>? λ label. Some (spec.IfForm rel left right label)) }
{
    let rel = rel_of(rel)?;
    match (operand_of(a), operand_of(b), free_name(label)) {
        (Some(a), Some(b), Some(label)) => Some(Form::If { rel, a, b, label }),
        _ => None,
    }
}

/// `goto NAME`
#[tactic(auto, unfolding(crate::specs::Forms::goto_form))]
fn goto_form<'w, 't>(words: &'w [Word<'t>]) -> Option<Form<'w, 't>>
    ensures { option_map form_seen result ≡ spec.goto_form (map plain words.now) }
{
    match words {
        [label] => {
            let label = free_name(label)?;
            Some(Form::Goto { label })
        }
        _ => None,
    }
}

/// `when REL a b d = s`
#[tactic(auto, unfolding(crate::specs::Forms::when_form))]
fn when_form<'w, 't>(words: &'w [Word<'t>]) -> Option<Form<'w, 't>>
    ensures { option_map form_seen result ≡ spec.when_form (map plain words.now) }
{
    match words {
        [rel, a, b, d, equals, s] => {
            if equals.is_mark(b"=") {
                move_of(rel, a, b, d, s)
            } else {
                None
            }
        }
        _ => None,
    }
}

/// A move where a condition holds.
fn move_of<'w, 't>(
    rel: &Word<'t>,
    a: &Word<'t>,
    b: &Word<'t>,
    d: &Word<'t>,
    s: &Word<'t>,
) -> Option<Form<'w, 't>>
    ensures { option_map form_seen result ≡ (spec.rel_of (plain rel.now) >>? λ rel.
        spec.operand_of (plain a.now) >>? λ left. spec.operand_of (plain b.now) >>? λ right.
        spec.free_name (plain d.now) >>? λ target. spec.operand_of (plain s.now) >>? λ value.
        Some (spec.WhenForm rel left right target value)) }
{
    let rel = rel_of(rel)?;
    match (operand_of(a), operand_of(b), free_name(d), operand_of(s)) {
        (Some(a), Some(b), Some(d), Some(s)) => Some(Form::When { rel, a, b, d, s }),
        _ => None,
    }
}

/// `return` and `return s`
#[tactic(auto, unfolding(crate::specs::Forms::return_form))]
fn return_form<'w, 't>(words: &'w [Word<'t>]) -> Option<Form<'w, 't>>
    ensures { option_map form_seen result ≡ spec.return_form (map plain words.now) }
{
    match words {
        [] => Some(Form::Return { s: None }),
        [s] => {
            let s = operand_of(s)?;
            Some(Form::Return { s: Some(s) })
        }
        _ => None,
    }
}

/// A form with nothing after it.
fn alone_form<'w, 't>(form: Form<'w, 't>, words: &[Word]) -> Option<Form<'w, 't>>
    ensures { option_map form_seen result
        ≡ spec.alone_form (form_seen form.entry) (map plain words.now) }
{
    match words {
        [] => Some(form),
        _ => None,
    }
}

/// `NAME :` and the assignments
#[tactic(auto, unfolding(crate::specs::Forms::named_form))]
fn named_form<'w, 't>(first: &Word<'t>, words: &'w [Word<'t>]) -> Option<Form<'w, 't>>
    ensures { option_map form_seen result
        ≡ spec.named_form (plain first.now) (map plain words.now) }
{
    match words {
        [mark, others @ ..] => {
            let name = free_name(first)?;
            if mark.is_mark(b"=") {
                assign_form(name, others)
            } else if mark.is_mark(b":") {
                alone_form(Form::Label { name }, others)
            } else {
                None
            }
        }
        _ => None,
    }
}
