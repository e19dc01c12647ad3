//! The words of a printed line.

ghost use Rattle.std.specs.Prelude.{◌≡◌, ◌++◌, ◌<◌, codes, decimal, OnOk};
ghost use Rattle.tta_pretty.specs.Printed.{var_name, label_name, proc_name, src_word, src_words, rel_name, var_names, words};
ghost use Rattle.tta_pretty.specs.Printing.{spaced_after};

use itoa::Buffer;
use std::alloc::AllocError;
use tta_program::{Rel, Src};

/// Puts a number at the end, in decimal.
pub fn push_number(out: &mut Vec<u8>, n: u32) -> Result<(), AllocError>
    ensures { OnOk result (out.new.items ≡ out.old.items ++ decimal n) }
{
    let mut buffer = Buffer::new();
    out.extend_from_slice(buffer.format(n).as_bytes())
}

/// Puts the name of a variable at the end.
pub fn push_var(out: &mut Vec<u8>, k: u32) -> Result<(), AllocError>
    ensures { OnOk result (out.new.items ≡ out.old.items ++ var_name k) }
{
    out.extend_from_slice(b"v")?;
    push_number(out, k)
}

/// Puts the name of a label at the end.
pub fn push_label(out: &mut Vec<u8>, k: u32) -> Result<(), AllocError>
    ensures { OnOk result (out.new.items ≡ out.old.items ++ label_name k) }
{
    out.extend_from_slice(b"L")?;
    push_number(out, k)
}

/// Puts the name of a procedure at the end.
pub fn push_proc(out: &mut Vec<u8>, main: u32, k: u32) -> Result<(), AllocError>
    ensures { OnOk result (out.new.items ≡ out.old.items ++ proc_name main k) }
{
    if k == main {
        return out.extend_from_slice(b"main");
    }
    out.extend_from_slice(b"p")?;
    push_number(out, k)
}

/// Puts an operand at the end.
pub fn push_src(out: &mut Vec<u8>, s: Src) -> Result<(), AllocError>
    ensures { OnOk result (out.new.items ≡ out.old.items ++ (src_word s).text) }
{
    match s {
        Src::Var(x) => push_var(out, x),
        Src::Word(w) => push_number(out, w),
    }
}

/// Puts an operand at the end, with a blank before it.
pub fn push_next_src(out: &mut Vec<u8>, s: Src) -> Result<(), AllocError>
    ensures { OnOk result (out.new.items ≡ out.old.items ++ (codes " " ++ (src_word s).text)) }
{
    out.extend_from_slice(b" ")?;
    push_src(out, s)
}

/// Puts operands at the end, with a blank before each.
pub fn push_srcs(out: &mut Vec<u8>, ss: &[Src]) -> Result<(), AllocError>
    ensures { OnOk result (out.new.items ≡ out.old.items ++ spaced_after (src_words ss.now)) }
{
    for s in ss {
        push_next_src(out, *s)?;
    }
    Ok(())
}

/// Puts a variable at the end, with a blank before it.
fn push_next_var(out: &mut Vec<u8>, k: u32) -> Result<(), AllocError>
    ensures { OnOk result (out.new.items ≡ out.old.items ++ (codes " " ++ var_name k)) }
{
    out.extend_from_slice(b" ")?;
    push_var(out, k)
}

/// Puts the first variables at the end, with a blank before each.
pub fn push_params(out: &mut Vec<u8>, count: u32) -> Result<(), AllocError>
    ensures { OnOk result (out.new.items
        ≡ out.old.items ++ spaced_after (words (var_names 0 count))) }
{
    for k in 0..count {
        push_next_var(out, k)?;
    }
    Ok(())
}

/// What a relation is called.
fn name_of(rel: Rel) -> &'static [u8]
    ensures { result.now ≡ rel_name rel }
{
    match rel {
        Rel::Eq => b"eq",
        Rel::Ne => b"ne",
        Rel::Lt => b"lt",
        Rel::Ge => b"ge",
        Rel::Ltu => b"ltu",
        Rel::Geu => b"geu",
    }
}

/// Puts a condition at the end, with a blank before each word.
pub fn push_condition(out: &mut Vec<u8>, rel: Rel, a: Src, b: Src) -> Result<(), AllocError>
    ensures { OnOk result (out.new.items ≡ out.old.items ++ (codes " " ++ (rel_name rel
        ++ (codes " " ++ ((src_word a).text ++ (codes " " ++ (src_word b).text)))))) }
{
    out.extend_from_slice(b" ")?;
    out.extend_from_slice(name_of(rel))?;
    push_next_src(out, a)?;
    push_next_src(out, b)
}

/// Puts the destination of an assignment and its mark at the end.
pub fn push_assign(out: &mut Vec<u8>, d: u32) -> Result<(), AllocError>
    ensures { OnOk result (out.new.items ≡ out.old.items ++ (var_name d ++ codes " =")) }
{
    push_var(out, d)?;
    out.extend_from_slice(b" =")
}
