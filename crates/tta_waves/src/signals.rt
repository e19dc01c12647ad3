//! Which signals a dump tells.

ghost use Rattle.std.specs.Prelude.{◌≡◌, ◌≤◌, ◌++◌, map, length, All, OnOk, IfOk};
ghost use Rattle.std.specs.List.{flat_map, enumerate_from, range_with_len};
ghost use Rattle.tta_waves.specs.declared.signal.Signal.TheVariants as signal;
ghost use Rattle.tta_waves.specs.Signals.{bus_signals, file_signals, imm_signals, signals_of};
ghost use Rattle.tta_waves.specs.Signals.{unit_signals};

use crate::signal::Signal;
use std::alloc::{AllocError, Global};
use tta_arch::{Bus, File, ImmUnit, Machine, Unit};

/// Puts the signals of buses.
fn push_buses(list: &mut Vec<Signal>, buses: &[Bus]) -> Result<(), AllocError>
    requires few { length buses.now ≤ 16 }
    ensures { OnOk result (list.new.items
        ≡ list.old.items ++ flat_map bus_signals (enumerate_from 0 buses.now)) }
{
    for (bus, _) in buses.iter().enumerate() {
        list.push(Signal::Acts { bus: bus as u8 })?;
        list.push(Signal::Carried { bus: bus as u8 })?;
    }
    Ok(())
}

/// Puts the operations of a unit that has so many.
fn push_ops(list: &mut Vec<Signal>, unit: u8, count: u8) -> Result<(), AllocError>
    ensures { OnOk result (list.new.items
        ≡ list.old.items ++ map (λ op. signal.Starts unit op) (range_with_len 0 count)) }
{
    for op in 0..count {
        list.push(Signal::Starts { unit, op })?;
    }
    Ok(())
}

/// Puts the signals of a unit.
fn push_unit(list: &mut Vec<Signal>, unit: u8, q: &Unit) -> Result<(), AllocError>
    requires few { length q.now.ops ≤ 32 }
    ensures { OnOk result (list.new.items ≡ list.old.items ++ unit_signals (unit, q.now)) }
{
    push_ops(list, unit, q.ops.len() as u8)?;
    list.push(Signal::Operand { unit })?;
    list.push(Signal::Shown { unit })?;
    Ok(())
}

/// Puts the signals of units.
fn push_units(list: &mut Vec<Signal>, units: &[Unit]) -> Result<(), AllocError>
    requires few { length units.now ≤ 32 }
    requires small { All (λ q. length q.ops ≤ 32) units.now }
    ensures { OnOk result (list.new.items
        ≡ list.old.items ++ flat_map unit_signals (enumerate_from 0 units.now)) }
{
    for (unit, q) in units.iter().enumerate() {
        push_unit(list, unit as u8, q)?;
    }
    Ok(())
}

/// Puts the registers of a file.
fn push_file(list: &mut Vec<Signal>, file: u8, f: &File) -> Result<(), AllocError>
    ensures { OnOk result (list.new.items ≡ list.old.items ++ file_signals (file, f.now)) }
{
    for index in 0..f.size {
        list.push(Signal::Register { file, index })?;
    }
    Ok(())
}

/// Puts the registers of files.
fn push_files(list: &mut Vec<Signal>, files: &[File]) -> Result<(), AllocError>
    requires few { length files.now ≤ 8 }
    ensures { OnOk result (list.new.items
        ≡ list.old.items ++ flat_map file_signals (enumerate_from 0 files.now)) }
{
    for (file, f) in files.iter().enumerate() {
        push_file(list, file as u8, f)?;
    }
    Ok(())
}

/// Puts the registers of an immediate unit.
fn push_imm(list: &mut Vec<Signal>, unit: u8, i: &ImmUnit) -> Result<(), AllocError>
    ensures { OnOk result (list.new.items ≡ list.old.items ++ imm_signals (unit, i.now)) }
{
    for index in 0..i.size {
        list.push(Signal::Immediate { unit, index })?;
    }
    Ok(())
}

/// Puts the registers of immediate units.
fn push_imms(list: &mut Vec<Signal>, imms: &[ImmUnit]) -> Result<(), AllocError>
    requires few { length imms.now ≤ 4 }
    ensures { OnOk result (list.new.items
        ≡ list.old.items ++ flat_map imm_signals (enumerate_from 0 imms.now)) }
{
    for (unit, i) in imms.iter().enumerate() {
        push_imm(list, unit as u8, i)?;
    }
    Ok(())
}

/// The signals of a machine, in the order in which they are declared.
pub fn signals_of(alloc: Global, m: &Machine) -> Result<Vec<Signal>, AllocError>
    ensures { IfOk result (λ v. v.items ≡ signals_of m.now) }
{
    let mut list = Vec::new(alloc);
    list.push(Signal::Address)?;
    list.push(Signal::Halted)?;
    push_buses(&mut list, m.buses.as_slice())?;
    push_units(&mut list, m.units.as_slice())?;
    push_files(&mut list, m.files.as_slice())?;
    push_imms(&mut list, m.imms.as_slice())?;
    list.push(Signal::ReturnAddress)?;
    Ok(list)
}
