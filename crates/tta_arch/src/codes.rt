//! The sources and destinations of a machine, in the order of their codes.

ghost use Rattle.std.specs.Prelude.{◌≡◌, ◌≤◌, [], ◌∷◌, ◌++◌, length, map, All, IfOk, OnOk};
ghost use Rattle.std.specs.Option.{option_map_or};
ghost use Rattle.tta_arch.specs.Fields.{numbers, all_sources, all_dests};
ghost use Rattle.tta_arch.specs.Layout.{file_sources, imm_sources, result_sources, file_dests};
ghost use Rattle.tta_arch.specs.Layout.{unit_dests, dests_of_unit};

use crate::ends::{Dest, Source};
use crate::machine::Machine;
use crate::parts::{File, ImmUnit, Unit};
use std::alloc::{AllocError, Global};

/// Puts the registers of a file at the end.
fn push_file(list: &mut Vec<Source>, file: u8, size: u8) -> Result<(), AllocError>
    ensures ok { OnOk result
        (list.new.items ≡ list.old.items ++ map (Source.Reg file) (numbers size)) }
{
    for index in 0..size {
        list.push(Source::Reg { file, index })?;
    }
    Ok(())
}

/// Puts the registers of files at the end.
fn push_files(list: &mut Vec<Source>, files: &[File]) -> Result<(), AllocError>
    requires { length files.now ≤ 256 }
    ensures ok { OnOk result (list.new.items ≡ list.old.items ++ file_sources files.now) }
{
    for (file, f) in files.iter().enumerate() {
        push_file(list, file as u8, f.size)?;
    }
    Ok(())
}

/// Puts the registers of an immediate unit at the end.
fn push_imm(list: &mut Vec<Source>, unit: u8, size: u8) -> Result<(), AllocError>
    ensures ok { OnOk result
        (list.new.items ≡ list.old.items ++ map (Source.Imm unit) (numbers size)) }
{
    for index in 0..size {
        list.push(Source::Imm { unit, index })?;
    }
    Ok(())
}

/// Puts the registers of immediate units at the end.
fn push_imms(list: &mut Vec<Source>, imms: &[ImmUnit]) -> Result<(), AllocError>
    requires { length imms.now ≤ 256 }
    ensures ok { OnOk result (list.new.items ≡ list.old.items ++ imm_sources imms.now) }
{
    for (unit, u) in imms.iter().enumerate() {
        push_imm(list, unit as u8, u.size)?;
    }
    Ok(())
}

/// Puts a unit's result port at the end, where it has one.
fn push_result(list: &mut Vec<Source>, unit: u8, port: Option<u8>) -> Result<(), AllocError>
    ensures ok { OnOk result
        (list.new.items ≡ list.old.items
        ++ option_map_or (λ r. Source.Shown unit ∷ []) port []) }
{
    if port.is_some() {
        list.push(Source::Shown { unit })?;
    }
    Ok(())
}

/// Puts the result ports of units at the end.
fn push_results(list: &mut Vec<Source>, units: &[Unit]) -> Result<(), AllocError>
    requires { length units.now ≤ 256 }
    ensures ok { OnOk result (list.new.items ≡ list.old.items ++ result_sources units.now) }
{
    for (unit, u) in units.iter().enumerate() {
        push_result(list, unit as u8, u.result)?;
    }
    Ok(())
}

/// Every source of a machine but the short words.
pub fn all_sources(alloc: Global, m: &Machine) -> Result<Vec<Source>, AllocError>
    ensures { IfOk result (λ v. v.items ≡ all_sources m.now) }
{
    let mut list = Vec::new(alloc);
    push_files(&mut list, m.files.as_slice())?;
    push_imms(&mut list, m.imms.as_slice())?;
    push_results(&mut list, m.units.as_slice())?;
    if m.control.ra.is_some() {
        list.push(Source::Ra)?;
    }
    Ok(list)
}

/// Puts the registers of a file at the end.
fn push_written(list: &mut Vec<Dest>, file: u8, size: u8) -> Result<(), AllocError>
    ensures ok { OnOk result
        (list.new.items ≡ list.old.items ++ map (Dest.Reg file) (numbers size)) }
{
    for index in 0..size {
        list.push(Dest::Reg { file, index })?;
    }
    Ok(())
}

/// Puts the registers of files at the end.
fn push_all_written(list: &mut Vec<Dest>, files: &[File]) -> Result<(), AllocError>
    requires { length files.now ≤ 256 }
    ensures ok { OnOk result (list.new.items ≡ list.old.items ++ file_dests files.now) }
{
    for (file, f) in files.iter().enumerate() {
        push_written(list, file as u8, f.size)?;
    }
    Ok(())
}

/// Puts a unit's operand port, where it has one, and its operations at the end.
fn push_unit(list: &mut Vec<Dest>, unit: u8, u: &Unit) -> Result<(), AllocError>
    requires { length u.now.ops ≤ 256 }
    ensures ok { OnOk result (list.new.items ≡ list.old.items ++ dests_of_unit unit u.now) }
{
    if u.operand.is_some() {
        list.push(Dest::Operand { unit })?;
    }
    for op in 0..u.ops.len() {
        list.push(Dest::Trigger { unit, op: op as u8 })?;
    }
    Ok(())
}

/// Puts the operand ports and operations of units at the end.
fn push_units(list: &mut Vec<Dest>, units: &[Unit]) -> Result<(), AllocError>
    requires units { length units.now ≤ 256 }
    requires ops { All (λ u. length u.ops ≤ 256) units.now }
    ensures ok { OnOk result (list.new.items ≡ list.old.items ++ unit_dests units.now) }
{
    for (unit, u) in units.iter().enumerate() {
        push_unit(list, unit as u8, u)?;
    }
    Ok(())
}

/// Every destination of a machine.
pub fn all_dests(alloc: Global, m: &Machine) -> Result<Vec<Dest>, AllocError>
    ensures { IfOk result (λ v. v.items ≡ all_dests m.now) }
{
    let mut list = Vec::new(alloc);
    push_all_written(&mut list, m.files.as_slice())?;
    push_units(&mut list, m.units.as_slice())?;
    list.extend_from_slice(&[Dest::Jump, Dest::Call, Dest::Halt])?;
    Ok(list)
}
