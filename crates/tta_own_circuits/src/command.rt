//! The command `circuit`: the function of an operation, by the circuit that its unit hands in.

ghost use Rattle.std.specs.Prelude.{◌≡◌, map, option_map, Some};
ghost use Rattle.std.specs.String.{string_bytes};
ghost use Rattle.tta_load.specs.Held.{MadeEnds};
ghost use Rattle.tta_own_circuits.specs.Command as c;

use crate::text::write_function;
use crate::unit::CircuitUnit;
use std::alloc::Global;
use tta_load::{Status, put_made};
use tta_ports::Sink;

/// Whether the words begin with the name of the command.
pub fn is_circuit(words: &Vec<String>) -> bool
    ensures { result ≡ c.is_circuit (map (λ w. string_bytes w) words.now.items) }
{
    match words.as_slice() {
        [first, ..] => first.as_str() == "circuit",
        _ => false,
    }
}

/// Whether the words begin with the name of the command `rtl`.
pub fn is_rtl(words: &Vec<String>) -> bool
    ensures { result ≡ c.is_rtl (map (λ w. string_bytes w) words.now.items) }
{
    match words.as_slice() {
        [first, ..] => first.as_str() == "rtl",
        _ => false,
    }
}

/// The name of the operation that the words ask for.
fn name_in<'w>(words: &'w [String]) -> Option<&'w str>
    ensures { option_map (λ s. s.now) result ≡ c.asked (map (λ w. string_bytes w) words.now) }
{
    match words {
        [_, name] => Some(name.as_str()),
        _ => None,
    }
}

/// The number of the operation of a name.
fn place_of<U: CircuitUnit>(unit: &U, name: &str) -> Option<usize>
    ensures { c.IsPlace (U.unit_size unit.now) (U.unit_name unit.now) name.now result }
{
    for i in 0..unit.count() {
        if unit.name(i) == name {
            return Some(i);
        }
    }
    None
}

/// The function of the operation of a name, as a text.
fn function_text<U: CircuitUnit>(alloc: Global, unit: &U, name: &str) -> Result<Vec<u8>, Status>
    ensures { let size = U.unit_size unit.now in
        let called = U.unit_name unit.now in
        let circuit = U.unit_circuit unit.now in
        MadeEnds (c.IsFunctionOf size called circuit name.now)
        (c.Lacks size called circuit name.now) (λ v. v.items) result }
{
    let Some(i) = place_of(unit, name) else {
        return Err(Status::Usage);
    };
    let Some(text) = unit.circuit(i) else {
        return Err(Status::Usage);
    };
    let mut out = Vec::new(alloc);
    match write_function(&mut out, name.as_bytes(), text) {
        Ok(()) => Ok(out),
        Err(_) => Err(Status::NoMemory),
    }
}

/// Puts the function of the operation of a name.
fn put_function<U: CircuitUnit, S: Sink>(
    alloc: Global,
    name: &str,
    unit: &U,
    sink: &mut S,
) -> Status
    ensures { c.Ends (U.unit_size unit.now) (U.unit_name unit.now) (U.unit_circuit unit.now)
        (Some name.now) (S.output sink.old) (S.output sink.new) result }
{
    put_made(sink, function_text(alloc, unit, name))
}

/// Puts the function of the operation that the words ask for, in one piece.
pub fn show_function<U: CircuitUnit, S: Sink>(
    alloc: Global,
    words: &Vec<String>,
    unit: &U,
    sink: &mut S,
) -> Status
    ensures { let name = c.asked (map (λ w. string_bytes w) words.now.items) in
        c.Ends (U.unit_size unit.now) (U.unit_name unit.now) (U.unit_circuit unit.now)
        name (S.output sink.old) (S.output sink.new) result }
{
    match name_in(words.as_slice()) {
        Some(name) => put_function(alloc, name, unit, sink),
        None => Status::Usage,
    }
}
