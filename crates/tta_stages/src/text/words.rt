//! The words of the lines.

ghost use Rattle.std.specs.Prelude.{◌≡◌, ◌++◌, codes, decimal, OnOk};
ghost use Rattle.tta_pretty.specs.Printed.{proc_name};
ghost use Rattle.tta_stages.specs.Words.{count_text, block_name, var_if, pair_text, pairs_text};
ghost use Rattle.tta_stages.specs.Words.{home_text, kept_text, source_text, operand_text};

use itoa::Buffer;
use std::alloc::AllocError;
use tta_arch::Machine;
use tta_disasm::{file_name, push_place};
use tta_lir::{Place, RSrc};

/// Puts a number at the end, in decimal.
pub fn push_number(out: &mut Vec<u8>, n: u128) -> Result<(), AllocError>
    ensures { OnOk result (out.new.items ≡ out.old.items ++ decimal n) }
{
    let mut buffer = Buffer::new();
    out.extend_from_slice(buffer.format(n).as_bytes())
}

/// Puts a number, and what it counts before it.
pub fn push_count(out: &mut Vec<u8>, what: &[u8], n: u128) -> Result<(), AllocError>
    ensures { OnOk result (out.new.items ≡ out.old.items ++ count_text what.now n) }
{
    out.extend_from_slice(what)?;
    push_number(out, n)
}

/// Puts the name of a variable with a blank before it, where something holds.
pub fn push_var_if(out: &mut Vec<u8>, test: bool, k: u32) -> Result<(), AllocError>
    ensures { OnOk result (out.new.items ≡ out.old.items ++ var_if test k) }
{
    if test {
        push_count(out, b" v", u128::from(k))
    } else {
        Ok(())
    }
}

/// Puts the name of a procedure.
pub fn push_proc(out: &mut Vec<u8>, main: u32, k: u32) -> Result<(), AllocError>
    ensures { OnOk result (out.new.items ≡ out.old.items ++ proc_name main k) }
{
    if k == main {
        out.extend_from_slice(b"main")
    } else {
        push_count(out, b"p", u128::from(k))
    }
}

/// Puts the name of a block of code.
pub fn push_block(out: &mut Vec<u8>, k: u128) -> Result<(), AllocError>
    ensures { OnOk result (out.new.items ≡ out.old.items ++ block_name k) }
{
    push_count(out, b"b", k)
}

/// Puts a register of a file.
pub fn push_pair(out: &mut Vec<u8>, m: &Machine, register: (u8, u8)) -> Result<(), AllocError>
    ensures { OnOk result (out.new.items ≡ out.old.items ++ pair_text m.now register) }
{
    push_place(out, file_name(m, register.0), register.1)
}

/// Puts a register of a file, with a blank before it.
fn push_next_pair(out: &mut Vec<u8>, m: &Machine, register: (u8, u8)) -> Result<(), AllocError>
    ensures { OnOk result (out.new.items ≡ out.old.items
        ++ (codes " " ++ pair_text m.now register)) }
{
    out.extend_from_slice(b" ")?;
    push_pair(out, m, register)
}

/// Puts registers of files, each with a blank before it.
pub fn push_pairs(out: &mut Vec<u8>, m: &Machine, all: &[(u8, u8)]) -> Result<(), AllocError>
    ensures { OnOk result (out.new.items ≡ out.old.items ++ pairs_text m.now all.now) }
{
    for register in all {
        push_next_pair(out, m, *register)?;
    }
    Ok(())
}

/// Puts a home register, as the register of the machine that it is.
pub fn push_home(
    out: &mut Vec<u8>,
    m: &Machine,
    homes: &[(u8, u8)],
    k: u32,
) -> Result<(), AllocError>
    ensures { OnOk result (out.new.items ≡ out.old.items ++ home_text m.now homes.now k) }
{
    match homes.get(k as usize) {
        Some(register) => push_pair(out, m, *register),
        None => Ok(()),
    }
}

/// Puts where a word is kept: a register of the machine, or a slot of the frame space.
pub fn push_kept(
    out: &mut Vec<u8>,
    m: &Machine,
    homes: &[(u8, u8)],
    place: Place,
) -> Result<(), AllocError>
    ensures { OnOk result (out.new.items ≡ out.old.items ++ kept_text m.now homes.now place) }
{
    match place {
        Place::Reg(k) => push_home(out, m, homes, k),
        Place::Frame(slot) => push_count(out, b"slot.", u128::from(slot)),
    }
}

/// Puts an operand.
fn push_source(
    out: &mut Vec<u8>,
    m: &Machine,
    homes: &[(u8, u8)],
    s: RSrc,
) -> Result<(), AllocError>
    ensures { OnOk result (out.new.items ≡ out.old.items ++ source_text m.now homes.now s) }
{
    match s {
        RSrc::At(place) => push_kept(out, m, homes, place),
        RSrc::Word(word) => push_number(out, u128::from(word)),
    }
}

/// Puts an operand, with a blank before it.
pub fn push_operand(
    out: &mut Vec<u8>,
    m: &Machine,
    homes: &[(u8, u8)],
    s: RSrc,
) -> Result<(), AllocError>
    ensures { OnOk result (out.new.items ≡ out.old.items ++ operand_text m.now homes.now s) }
{
    out.extend_from_slice(b" ")?;
    push_source(out, m, homes, s)
}
