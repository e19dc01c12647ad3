//! The variables of a procedure. They get their numbers at their first appearance.

ghost use Rattle.std.specs.Prelude.{◌≡◌, ◌+◌, ◌<◌, ◌≤◌, ◌^◌, length, IfOk, OnOk};
ghost use Rattle.tta_tac.specs.FirstPass.{with_var, with_operand, with_operands};
ghost use Rattle.tta_tac.specs.FirstPass.{var_number, src_of, srcs_of};
ghost use Rattle.tta_tac.specs.Seen.{operand_seen, operands_in};

use crate::forms::Operand;
use crate::pieces::operand_of;
use std::alloc::{AllocError, Global};
use tta_parse::{Names, Word};
use tta_program::{Args, Src};

/// Gives a variable the next number, where it has none. An `Err` is out of memory.
pub fn declare(alloc: Global, vars: &mut Names<u32>, name: &[u8]) -> Result<(), AllocError>
    requires { length vars.old < 2 ^ 32 }
    ensures ok { OnOk result (vars.new ≡ with_var vars.old name.now) }
    ensures most { OnOk result (length vars.new ≤ length vars.old + 1) }
{
    if vars.get(name).is_some() {
        return Ok(());
    }
    let number = vars.len() as u32;
    vars.add(alloc, name, number)?;
    Ok(())
}

/// Gives the variable of an operand the next number, where it has none. An `Err` is out of memory.
pub fn declare_operand(
    alloc: Global,
    vars: &mut Names<u32>,
    operand: Operand,
) -> Result<(), AllocError>
    requires { length vars.old < 2 ^ 32 }
    ensures ok { OnOk result (vars.new ≡ with_operand vars.old (operand_seen operand.entry)) }
    ensures most { OnOk result (length vars.new ≤ length vars.old + 1) }
{
    match operand {
        Operand::Named(name) => {
            declare(alloc, vars, name)?;
            Ok(())
        }
        Operand::Constant(_) => Ok(()),
    }
}

/// Gives the variables among words the next numbers, where they have none, from left to right. An
/// `Err` is out of memory.
pub fn declare_operands(
    alloc: Global,
    vars: &mut Names<u32>,
    words: &[Word],
) -> Result<(), AllocError>
    requires { length vars.old + length (operands_in words.now) ≤ 2 ^ 32 }
    ensures { OnOk result (vars.new ≡ with_operands vars.old (operands_in words.now)) }
{
    for word in words {
        if let Some(operand) = operand_of(word) {
            declare_operand(alloc, vars, operand)?;
        }
    }
    Ok(())
}

/// How many of the words are operands.
pub fn count_operands(words: &[Word]) -> usize
    ensures { result ≡ length (operands_in words.now) }
{
    let mut count = 0;
    for word in words {
        if operand_of(word).is_some() {
            count += 1;
        }
    }
    count
}

/// The number of a variable that was declared.
pub fn number_of(vars: &Names<u32>, name: &[u8]) -> u32
    ensures { result ≡ var_number vars.now name.now }
{
    match vars.get(name) {
        Some(number) => number,
        None => 0,
    }
}

/// An operand whose variable, if it is one, was declared.
pub fn src_of(vars: &Names<u32>, operand: Operand) -> Src
    ensures { result ≡ src_of vars.now (operand_seen operand.entry) }
{
    match operand {
        Operand::Named(name) => Src::Var(number_of(vars, name)),
        Operand::Constant(word) => Src::Word(word),
    }
}

/// The operands among words as arguments. Their variables were declared. An `Err` is out of memory.
pub fn args_of(alloc: Global, vars: &Names<u32>, words: &[Word]) -> Result<Args, AllocError>
    requires { length (operands_in words.now) ≤ 8 }
    ensures { IfOk result (λ args. args ≡ srcs_of vars.now (operands_in words.now)) }
{
    let mut args = Args::new(alloc);
    for word in words {
        if let Some(operand) = operand_of(word) {
            args.push(src_of(vars, operand))?;
        }
    }
    Ok(args)
}
