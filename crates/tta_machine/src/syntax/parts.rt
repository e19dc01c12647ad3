//! The forms of buses, sockets, files, immediate units and units.

ghost use Rattle.std.specs.Prelude.{◌≡◌, map, option_map};
ghost use Rattle.tta_parse.specs.Lines.{plain};
ghost use Rattle.tta_machine.specs.Forms as spec;
ghost use Rattle.tta_machine.specs.Seen.{bus_seen, socket_seen, file_seen, imm_seen, unit_seen};

use super::pieces::{keyed_name, keyed_value, names_alone, one_of_two};
use crate::forms::{BusForm, FileForm, ImmForm, SocketForm, UnitForm};
use tta_parse::Word;

/// What the words after `bus` declare.
#[tactic(auto, unfolding(crate::specs::Forms::bus_form))]
pub fn bus_form<'t>(words: &'t [Word<'t>]) -> Option<BusForm<'t>>
    ensures { option_map bus_seen result ≡ spec.bus_form (map plain words.now) }
{
    match words {
        [name, key, short, sign] => {
            if !key.is_keyword(b"short") {
                return None;
            }
            let signed = one_of_two(b"signed", b"unsigned", sign);
            match (name.name(), short.value(), signed) {
                (Some(name), Some(short), Some(signed)) => Some(BusForm {
                    name,
                    short,
                    signed,
                }),
                _ => None,
            }
        }
        _ => None,
    }
}

/// What the words after `socket` declare.
#[tactic(auto, unfolding(crate::specs::Forms::socket_form))]
pub fn socket_form<'t>(words: &'t [Word<'t>]) -> Option<SocketForm<'t>>
    ensures { option_map socket_seen result ≡ spec.socket_form (map plain words.now) }
{
    match words {
        [name, direction, buses @ ..] if !buses.is_empty() => {
            let input = one_of_two(b"in", b"out", direction);
            match (name.name(), input, names_alone(buses)) {
                (Some(name), Some(input), Some(buses)) => Some(SocketForm { name, input, buses }),
                _ => None,
            }
        }
        _ => None,
    }
}

/// A file of these numbers, whose sockets these words name.
fn file_sockets<'t>(
    name: &'t [u8],
    width: u32,
    size: u32,
    read: u32,
    write: u32,
    words: &'t [Word<'t>],
) -> Option<FileForm<'t>>
    ensures { option_map file_seen result
        ≡ spec.file_sockets name.now width size read write (map plain words.now) }
{
    match words {
        [out_key, out, in_key, into] => {
            let out = keyed_name(b"out", out_key, out);
            match (out, keyed_name(b"in", in_key, into)) {
                (Some(out), Some(into)) => Some(FileForm {
                    name,
                    width,
                    size,
                    read,
                    write,
                    out,
                    into,
                }),
                _ => None,
            }
        }
        _ => None,
    }
}

/// What the words after `file` declare.
#[tactic(auto, using(crate::proofs::Pieces::file_form_of), unfolding(crate::specs::Forms::file_form))]
pub fn file_form<'t>(words: &'t [Word<'t>]) -> Option<FileForm<'t>>
    ensures { option_map file_seen result ≡ spec.file_form (map plain words.now) }
{
    match words {
        [
            name,
            width_key,
            width,
            size_key,
            size,
            read_key,
            read,
            write_key,
            write,
            sockets @ ..,
        ] => {
            let width = keyed_value(b"width", width_key, width);
            let size = keyed_value(b"size", size_key, size);
            let read = keyed_value(b"read", read_key, read);
            let write = keyed_value(b"write", write_key, write);
            match (name.name(), width, size, read, write) {
                (Some(name), Some(width), Some(size), Some(read), Some(write)) => {
                    file_sockets(name, width, size, read, write, sockets)
                }
                _ => None,
            }
        }
        _ => None,
    }
}

/// What the words after `imm` declare.
#[tactic(auto, unfolding(crate::specs::Forms::imm_form))]
pub fn imm_form<'t>(words: &'t [Word<'t>]) -> Option<ImmForm<'t>>
    ensures { option_map imm_seen result ≡ spec.imm_form (map plain words.now) }
{
    match words {
        [name, size_key, size, out_key, out] => {
            let size = keyed_value(b"size", size_key, size);
            let out = keyed_name(b"out", out_key, out);
            match (name.name(), size, out) {
                (Some(name), Some(size), Some(out)) => Some(ImmForm { name, size, out }),
                _ => None,
            }
        }
        _ => None,
    }
}

/// The ports of a unit after its operand port: the trigger port, and then the result port or
/// nothing.
fn unit_ports<'t>(
    name: &'t [u8],
    operand: Option<&'t [u8]>,
    words: &'t [Word<'t>],
) -> Option<UnitForm<'t>>
    ensures { option_map unit_seen result
        ≡ spec.unit_ports name.now (option_map (λ o. o.now) operand.entry) (map plain words.now) }
{
    match words {
        [key, trigger] => {
            match keyed_name(b"t", key, trigger) {
                Some(trigger) => Some(UnitForm {
                    name,
                    operand,
                    trigger,
                    result: None,
                }),
                None => None,
            }
        }
        [trigger_key, trigger, result_key, result] => {
            let trigger = keyed_name(b"t", trigger_key, trigger);
            match (trigger, keyed_name(b"r", result_key, result)) {
                (Some(trigger), Some(result)) => Some(UnitForm {
                    name,
                    operand,
                    trigger,
                    result: Some(result),
                }),
                _ => None,
            }
        }
        _ => None,
    }
}

/// What the words after `unit` declare.
#[tactic(auto, unfolding(crate::specs::Forms::unit_form))]
pub fn unit_form<'t>(words: &'t [Word<'t>]) -> Option<UnitForm<'t>>
    ensures { option_map unit_seen result ≡ spec.unit_form (map plain words.now) }
{
    match words {
        [name, key, socket, others @ ..] => {
            match (name.name(), key.is_keyword(b"o"), socket.name()) {
                (Some(name), true, Some(operand)) => unit_ports(name, Some(operand), others),
                (Some(name), false, _) => unit_ports(name, None, &words[1..]),
                _ => None,
            }
        }
        _ => None,
    }
}
