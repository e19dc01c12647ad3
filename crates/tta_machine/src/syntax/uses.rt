//! The forms of what is said of such parts: operations, guards, templates and control; and of the
//! spaces' sizes.

ghost use Rattle.std.specs.Prelude.{◌≡◌, map, option_map};
ghost use Rattle.tta_parse.specs.Lines.{plain};
ghost use Rattle.tta_machine.specs.Forms as spec;
ghost use Rattle.tta_machine.specs.Seen.{op_seen, guard_seen, template_seen, control_seen};
ghost use Rattle.tta_machine.specs.Seen.{space_seen};

use super::pieces::{keyed_name, keyed_value, names_alone, one_of_two};
use crate::forms::{ControlForm, GuardForm, OpForm, SpaceForm, TemplateForm};
use tta_parse::Word;

/// What the words after `op` declare.
#[tactic(auto, unfolding(crate::specs::Forms::op_form))]
pub fn op_form<'t>(words: &'t [Word<'t>]) -> Option<OpForm<'t>>
    ensures { option_map op_seen result ≡ spec.op_form (map plain words.now) }
{
    match words {
        [unit, operation] => {
            match (unit.name(), operation.name()) {
                (Some(unit), Some(operation)) => Some(OpForm {
                    unit,
                    operation,
                    latency: None,
                }),
                _ => None,
            }
        }
        [unit, operation, latency] => {
            match (unit.name(), operation.name(), latency.value()) {
                (Some(unit), Some(operation), Some(latency)) => Some(OpForm {
                    unit,
                    operation,
                    latency: Some(latency),
                }),
                _ => None,
            }
        }
        _ => None,
    }
}

/// What the words after `guard` declare.
#[tactic(auto, unfolding(crate::specs::Forms::guard_form))]
pub fn guard_form<'t>(words: &'t [Word<'t>]) -> Option<GuardForm<'t>>
    ensures { option_map guard_seen result ≡ spec.guard_form (map plain words.now) }
{
    match words {
        [bus, file, dot, index, sense] => {
            if !dot.is_mark(b".") {
                return None;
            }
            let inverted = one_of_two(b"inverted", b"plain", sense);
            match (bus.name(), file.name(), index.value(), inverted) {
                (Some(bus), Some(file), Some(index), Some(inverted)) => Some(GuardForm {
                    bus,
                    file,
                    index,
                    inverted,
                }),
                _ => None,
            }
        }
        _ => None,
    }
}

/// What the words after `template` declare.
#[tactic(auto, unfolding(crate::specs::Forms::template_form))]
pub fn template_form<'t>(words: &'t [Word<'t>]) -> Option<TemplateForm<'t>>
    ensures { option_map template_seen result ≡ spec.template_form (map plain words.now) }
{
    match words {
        [name, imm, dot, index, buses @ ..] if !buses.is_empty() => {
            if !dot.is_mark(b".") {
                return None;
            }
            match (name.name(), imm.name(), index.value(), names_alone(buses)) {
                (Some(name), Some(imm), Some(index), Some(buses)) => Some(TemplateForm {
                    name,
                    imm,
                    index,
                    buses,
                }),
                _ => None,
            }
        }
        _ => None,
    }
}

/// The socket of the return address after its keyword, or nothing where the line has ended.
fn ra_pair<'t>(words: &'t [Word<'t>]) -> Option<Option<&'t [u8]>>
    ensures { option_map (λ ra. option_map (λ n. n.now) ra) result
        ≡ spec.ra_pair (map plain words.now) }
{
    match words {
        [] => Some(None),
        [key, socket] => {
            match keyed_name(b"ra", key, socket) {
                Some(ra) => Some(Some(ra)),
                None => None,
            }
        }
        _ => None,
    }
}

/// What the words after `control` declare.
#[tactic(auto, unfolding(crate::specs::Forms::control_form))]
pub fn control_form<'t>(words: &'t [Word<'t>]) -> Option<ControlForm<'t>>
    ensures { option_map control_seen result ≡ spec.control_form (map plain words.now) }
{
    match words {
        [
            delay_key,
            delay,
            address_key,
            address,
            trigger_key,
            trigger,
            others @ ..,
        ] => {
            let delay = keyed_value(b"delay", delay_key, delay);
            let address = keyed_value(b"address", address_key, address);
            let trigger = keyed_name(b"t", trigger_key, trigger);
            match (delay, address, trigger, ra_pair(others)) {
                (Some(delay), Some(address), Some(trigger), Some(ra)) => Some(ControlForm {
                    delay,
                    address,
                    trigger,
                    ra,
                }),
                _ => None,
            }
        }
        _ => None,
    }
}

/// What the words after `space` declare.
#[tactic(auto, unfolding(crate::specs::Forms::space_form))]
pub fn space_form(words: &[Word]) -> Option<SpaceForm>
    ensures { option_map space_seen result ≡ spec.space_form (map plain words.now) }
{
    match words {
        [space, size] => {
            match (one_of_two(b"data", b"frame", space), size.value()) {
                (Some(is_data), Some(size)) => Some(SpaceForm { is_data, size }),
                _ => None,
            }
        }
        _ => None,
    }
}
