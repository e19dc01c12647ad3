//! Texts of cores with the functions of operations in the place of the lines that include their files.

ghost use Rattle.std.specs.Prelude.{◌≡◌, ◌≤◌, ◌++◌, ◌∷◌, [], List, ℕ, IfOk, OnOk};
ghost use Rattle.std.specs.Str.{bytes_eq};
ghost use Rattle.tta_own_circuits.specs.Included as i;

use crate::kept::KeptText;
use crate::text::write_function;
use crate::unit::CircuitUnit;
use std::alloc::{AllocError, Global};
use tta_load::{Status, put_made};
use tta_ports::Sink;
use tta_verilog::push_text;

/// The line that includes the file of an operation.
#[tactic(auto, unfolding(crate::specs::Included::include_line))]
fn include_line(alloc: Global, name: &[u8]) -> Result<Vec<u8>, AllocError>
    ensures { IfOk result (λ v. v.items ≡ i.include_line name.now) }
{
    let mut line = Vec::new(alloc);
    push_text(&mut line, b"`include \"")?;
    push_text(&mut line, name)?;
    push_text(&mut line, b".v\"")?;
    Ok(line)
}

/// Whether a line includes the file of an operation.
fn includes(alloc: Global, line: &[u8], name: &[u8]) -> Result<bool, AllocError>
    ensures { IfOk result (λ b. b ≡ bytes_eq line.now (i.include_line name.now)) }
{
    let wanted = include_line(alloc, name)?;
    Ok(line == wanted.as_slice())
}

/// Puts the function of the operation below a number whose file a line includes, if there is one, and
/// says whether there is.
fn push_function_at<U: CircuitUnit>(
    alloc: Global,
    out: &mut Vec<u8>,
    unit: &U,
    line: &[u8],
    below: usize,
) -> Result<bool, AllocError>
    requires { below ≤ U.unit_size unit.now }
    ensures { let called = U.unit_name unit.now in
        let circuit = U.unit_circuit unit.now in
        IfOk result (λ put. i.IsPutIfAny (i.function_at called circuit below line.now) put
        out.old.items out.new.items) }
{
    if below == 0 {
        return Ok(false);
    }
    let name = unit.name(below - 1).as_bytes();
    if !includes(alloc, line, name)? {
        return push_function_at(alloc, out, unit, line, below - 1);
    }
    let Some(text) = unit.circuit(below - 1) else {
        return Ok(false);
    };
    write_function(out, name, text)?;
    Ok(true)
}

/// Puts what stands in the place of a line.
fn push_line<U: CircuitUnit>(
    alloc: Global,
    out: &mut Vec<u8>,
    unit: &U,
    line: &[u8],
) -> Result<(), AllocError>
    ensures { let size = U.unit_size unit.now in
        let called = U.unit_name unit.now in
        let circuit = U.unit_circuit unit.now in
        OnOk result (out.new.items ≡ out.old.items ++ i.line_text called circuit size line.now) }
{
    if push_function_at(alloc, out, unit, line, unit.count())? {
        return Ok(());
    }
    push_text(out, line)?;
    push_text(out, b"\n")
}

/// Takes a byte more of a text, of whose last line so much has come.
fn take_byte<U: CircuitUnit>(
    alloc: Global,
    out: &mut Vec<u8>,
    unit: &U,
    line: &mut Vec<u8>,
    byte: u8,
) -> Result<(), AllocError>
    ensures { let size = U.unit_size unit.now in
        let called = U.unit_name unit.now in
        let circuit = U.unit_circuit unit.now in
        let of = i.with_functions called circuit size in
        OnOk result ((rest : List ℕ)
        → out.new.items ++ of line.new.items rest ≡ out.old.items ++ of line.old.items (byte ∷ rest)) }
{
    if byte == b'\n' {
        push_line(alloc, out, unit, line.as_slice())?;
        line.clear();
        return Ok(());
    }
    line.push(byte)?;
    Ok(())
}

/// A text in which each line that includes the file of an operation whose circuit a unit hands in has
/// become the function of that circuit.
pub fn with_functions<U: CircuitUnit>(
    alloc: Global,
    unit: &U,
    text: &[u8],
) -> Result<Vec<u8>, AllocError>
    ensures { let size = U.unit_size unit.now in
        let called = U.unit_name unit.now in
        let circuit = U.unit_circuit unit.now in
        IfOk result (λ v. v.items ≡ i.with_functions called circuit size [] text.now) }
{
    let mut out = Vec::new(alloc);
    let mut line = Vec::new(alloc);
    for k in 0..text.len() {
        take_byte(alloc, &mut out, unit, &mut line, text[k])?;
    }
    push_text(&mut out, line.as_slice())?;
    Ok(out)
}

/// Puts the text that a command has put into memory, with these functions in it, in one piece. Where it
/// has not ended well, nothing is put; a put into memory fails for want of it alone.
pub fn put_with_functions<U: CircuitUnit, S: Sink>(
    alloc: Global,
    unit: &U,
    shown: Status,
    kept: &KeptText,
    sink: &mut S,
) -> Status
    ensures { let size = U.unit_size unit.now in
        let called = U.unit_name unit.now in
        let circuit = U.unit_circuit unit.now in
        i.EndsIncluded called circuit size shown kept.now.taken
        (S.output sink.old) (S.output sink.new) result }
{
    match shown {
        Status::Ok => match with_functions(alloc, unit, kept.bytes()) {
            Ok(made) => put_made(sink, Ok(made)),
            Err(_) => Status::NoMemory,
        },
        Status::WriteFault => Status::NoMemory,
        other => other,
    }
}
