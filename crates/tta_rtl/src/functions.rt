//! The operations, as functions of two words.

ghost use Rattle.std.specs.Prelude.{◌≡◌, ◌<◌, ◌++◌, length, OnOk};
ghost use Rattle.std.specs.Option.{option_map};
ghost use Rattle.tta_ops.specs.Set.{stated};
ghost use Rattle.tta_rtl.specs.Functions as f;

use crate::dividing::push_division;
use std::alloc::AllocError;
use tta_arch::{Machine, Op, Unit, UnitOp};
use tta_ops::{OpId, UnitSet};
use tta_verilog::{push_number, push_text};

/// Whether this is the operation of a number.
pub fn has_number(id: OpId, op: Op) -> bool
    ensures { result ≡ f.has_number id.0 op }
{
    match op {
        Op::Set(o) => o.0 == id.0,
        _ => false,
    }
}

/// Whether one of some operations is this one.
fn is_among(id: OpId, ops: &[UnitOp]) -> bool
    ensures { result ≡ f.is_among id.0 ops.now }
{
    match ops {
        [] => false,
        [o, rest @ ..] => has_number(id, o.op) || is_among(id, rest),
    }
}

/// Whether one of some units offers an operation.
fn is_offered(id: OpId, all: &[Unit]) -> bool
    ensures { result ≡ f.is_offered id.0 all.now }
{
    match all {
        [] => false,
        [u, rest @ ..] => is_among(id, u.ops.as_slice()) || is_offered(id, rest),
    }
}

/// What the word of a sum or product is made of, by its name.
fn arithmetic(name: &[u8]) -> Option<&'static [u8]>
    ensures { option_map (λ word. word.now) result ≡ f.word_in f.arithmetic name.now }
{
    Some(if name == b"add".as_slice() {
        b"(a)+(b)".as_slice()
    } else if name == b"sub".as_slice() {
        b"(a)-(b)".as_slice()
    } else if name == b"mul".as_slice() {
        b"(a)*(b)".as_slice()
    } else if name == b"mulhu".as_slice() {
        b"t_0[32+:32]".as_slice()
    } else if name == b"neg".as_slice() {
        b"(32'd0)-(b)".as_slice()
    } else {
        return None;
    })
}

/// What the word of an operation on bits is made of, by its name. `shr` copies the top bit.
fn logic(name: &[u8]) -> Option<&'static [u8]>
    ensures { option_map (λ word. word.now) result ≡ f.word_in f.logic name.now }
{
    Some(if name == b"and".as_slice() {
        b"(a)&(b)".as_slice()
    } else if name == b"or".as_slice() {
        b"(a)|(b)".as_slice()
    } else if name == b"xor".as_slice() {
        b"(a)^(b)".as_slice()
    } else if name == b"not".as_slice() {
        b"(b)^(32'd4294967295)".as_slice()
    } else if name == b"shl".as_slice() {
        b"(a)<<(b[0+:5])".as_slice()
    } else if name == b"shr".as_slice() {
        b"t_0[0+:32]".as_slice()
    } else if name == b"shru".as_slice() {
        b"(a)>>(b[0+:5])".as_slice()
    } else {
        return None;
    })
}

/// What the word of a comparison is made of, by its name. `lt` and `gt` turn the top bits.
fn comparison(name: &[u8]) -> Option<&'static [u8]>
    ensures { option_map (λ word. word.now) result ≡ f.word_in f.comparisons name.now }
{
    Some(if name == b"eq".as_slice() {
        b"{31'd0,(a)==(b)}".as_slice()
    } else if name == b"ne".as_slice() {
        b"{31'd0,!((a)==(b))}".as_slice()
    } else if name == b"lt".as_slice() {
        b"{31'd0,({!(a[31+:1]),a[0+:31]})<({!(b[31+:1]),b[0+:31]})}".as_slice()
    } else if name == b"gt".as_slice() {
        b"{31'd0,({!(b[31+:1]),b[0+:31]})<({!(a[31+:1]),a[0+:31]})}".as_slice()
    } else if name == b"ltu".as_slice() {
        b"{31'd0,(a)<(b)}".as_slice()
    } else if name == b"gtu".as_slice() {
        b"{31'd0,(b)<(a)}".as_slice()
    } else {
        return None;
    })
}

/// What the word of a division is made of, by its name: the digits that its last digit leaves, or the rest.
fn division(name: &[u8]) -> Option<&'static [u8]>
    ensures { option_map (λ word. word.now) result ≡ f.word_in f.divisions name.now }
{
    if name == b"divu".as_slice() {
        return Some(b"t_159".as_slice());
    }
    if name == b"remu".as_slice() {
        return Some(b"t_158".as_slice());
    }
    None
}

/// What the word of a standard operation is made of, by its name.
fn word_of(name: &[u8]) -> Option<&'static [u8]>
    ensures { option_map (λ word. word.now) result ≡ f.word_of name.now }
{
    if let Some(word) = arithmetic(name) {
        return Some(word);
    }
    if let Some(word) = logic(name) {
        return Some(word);
    }
    if let Some(word) = comparison(name) {
        return Some(word);
    }
    division(name)
}

/// Whether an operation is a standard one, by its name.
pub fn is_standard(name: &[u8]) -> bool
    ensures { result ≡ f.is_standard name.now }
{
    word_of(name).is_some()
}

/// Whether it is a division.
fn is_division(name: &[u8]) -> bool
    ensures { result ≡ f.is_division name.now }
{
    division(name).is_some()
}

/// The lines before the word of an operation that is no division.
fn before_other(name: &[u8]) -> &'static [u8]
    ensures { result.now ≡ f.before_other name.now }
{
    if name == b"mulhu".as_slice() {
        b"reg [63:0] t_0;\nbegin\nt_0 = ({32'd0,a})*({32'd0,b});\n".as_slice()
    } else if name == b"shr".as_slice() {
        b"reg [63:0] t_0;\nbegin\nt_0 = ({(a[31+:1])?(32'd4294967295):32'd0,a})>>(b[0+:5]);\n".as_slice()
    } else {
        b"begin\n".as_slice()
    }
}

/// Puts the lines before the word of an operation.
fn push_before(out: &mut Vec<u8>, name: &[u8]) -> Result<(), AllocError>
    ensures { OnOk result (out.new.items ≡ out.old.items ++ f.before_of name.now) }
{
    if is_division(name) {
        push_division(out)
    } else {
        push_text(out, before_other(name))
    }
}

/// Puts the lines of a function before what it makes. Functions are called by the numbers of operations.
#[tactic(auto, unfolding(crate::specs::Functions::function_head))]
fn start_function(out: &mut Vec<u8>, id: OpId, name: &[u8]) -> Result<(), AllocError>
    ensures { OnOk result (out.new.items ≡ out.old.items ++ f.function_head id.0 name.now) }
{
    push_text(out, b"// ")?;
    push_text(out, name)?;
    push_text(out, b"\nfunction [31:0] op_")?;
    push_number(out, u64::from(id.0))?;
    push_text(out, b";\ninput [31:0] a;\ninput [31:0] b;\n")
}

/// Puts the last lines of a function, which takes its word.
#[tactic(auto, unfolding(crate::specs::Functions::function_end))]
fn end_function(out: &mut Vec<u8>, id: OpId, word: &[u8]) -> Result<(), AllocError>
    ensures { OnOk result (out.new.items ≡ out.old.items ++ f.function_end id.0 word.now) }
{
    push_text(out, b"op_")?;
    push_number(out, u64::from(id.0))?;
    push_text(out, b" = ")?;
    push_text(out, word)?;
    push_text(out, b";\nend\nendfunction\n")
}

/// Puts the function of a standard operation.
fn push_standard(out: &mut Vec<u8>, id: OpId, name: &[u8], word: &[u8]) -> Result<(), AllocError>
    ensures { OnOk result (out.new.items
        ≡ out.old.items ++ f.standard_text id.0 name.now word.now) }
{
    start_function(out, id, name)?;
    push_before(out, name)?;
    end_function(out, id, word)
}

/// Puts what an operation of one's own makes of its two words.
#[tactic(auto, unfolding(crate::specs::Functions::called_text))]
fn push_called(out: &mut Vec<u8>, id: OpId, name: &[u8]) -> Result<(), AllocError>
    ensures { OnOk result (out.new.items ≡ out.old.items ++ f.called_text id.0 name.now) }
{
    push_text(out, b"op_")?;
    push_number(out, u64::from(id.0))?;
    push_text(out, b" = own_")?;
    push_text(out, name)?;
    push_text(out, b"(a, b);\nendfunction\n")
}

/// Puts the function of an operation of one's own, which calls that of a file.
#[tactic(auto, unfolding(crate::specs::Functions::own_text))]
fn push_own(out: &mut Vec<u8>, id: OpId, name: &[u8]) -> Result<(), AllocError>
    ensures { OnOk result (out.new.items ≡ out.old.items ++ f.own_text id.0 name.now) }
{
    push_text(out, b"`include \"")?;
    push_text(out, name)?;
    push_text(out, b".v\"\n")?;
    start_function(out, id, name)?;
    push_called(out, id, name)
}

/// Puts the function of an operation by its name.
pub fn push_function(out: &mut Vec<u8>, id: OpId, name: &[u8]) -> Result<(), AllocError>
    ensures { OnOk result (out.new.items ≡ out.old.items ++ f.operation_text id.0 name.now) }
{
    match word_of(name) {
        Some(word) => push_standard(out, id, name, word),
        None => push_own(out, id, name),
    }
}

/// Puts the function of an operation, if the machine offers it.
fn push_offered(out: &mut Vec<u8>, m: &Machine, units: &UnitSet, id: OpId) -> Result<(), AllocError>
    requires { id.0 < length (stated unit_meaning units.now).names }
    ensures { let U = stated unit_meaning units.now in
        OnOk result (out.new.items ≡ out.old.items ++ f.offered_text U m.now id.0) }
{
    if !is_offered(id, m.units.as_slice()) {
        return Ok(());
    }
    push_function(out, id, units.name(id).as_bytes())
}

/// Puts the functions of the operations that the machine offers.
pub fn push_functions(out: &mut Vec<u8>, m: &Machine, units: &UnitSet) -> Result<(), AllocError>
    ensures { let U = stated unit_meaning units.now in
        OnOk result (out.new.items ≡ out.old.items ++ f.functions_text U m.now) }
{
    for op in 0..units.len() {
        push_offered(out, m, units, OpId(op as u32))?;
    }
    Ok(())
}
