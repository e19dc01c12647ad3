//! The registers that can keep variables.

ghost use Rattle.std.specs.Prelude.{◌≡◌, ◌++◌, ◌-◌, [], None, OnOk, IfOk, if◌then◌else◌};
ghost use Rattle.tta_connect.specs.Coverage.{registers_from, is_home_file, homes_from, homes_of};

use crate::ends::{from, into, some_bus};
use crate::target_machine::TargetMachine;
use std::alloc::{AllocError, Global};
use tta_arch::File;
use tta_list::{Items, entry_at};

/// Appends the registers of a file from one on.
fn push_registers(
    homes: &mut Vec<(u8, u8)>,
    file: u8,
    first: u8,
    size: u8,
) -> Result<(), AllocError>
    ensures { OnOk result
        (homes.new.items ≡ homes.old.items ++ registers_from file first (size - first)) }
{
    for index in first..size {
        homes.push((file, index))?;
    }
    Ok(())
}

/// Whether a file other than the hub can keep variables.
fn is_home_file(on: &TargetMachine<'_>, hub: u8, file: u8, f: &File) -> bool
    ensures { result ≡ is_home_file on.now.machine.now hub file f.now }
{
    file != hub
        && f.width == 32
        && some_bus(on, from(file), into(hub), None)
        && some_bus(on, from(hub), into(file), None)
}

/// Appends the home registers of a file other than the hub.
fn push_file(
    homes: &mut Vec<(u8, u8)>,
    on: &TargetMachine<'_>,
    hub: u8,
    file: u8,
    f: &File,
) -> Result<(), AllocError>
    ensures { OnOk result (homes.new.items ≡ homes.old.items
        ++ (if is_home_file on.now.machine.now hub file f.now
        then registers_from file 0 f.now.size else [])) }
{
    if is_home_file(on, hub, file, f) {
        push_registers(homes, file, 0, f.size)?;
    }
    Ok(())
}

/// Appends the home registers of all files but the hub.
fn push_files(homes: &mut Vec<(u8, u8)>, on: &TargetMachine<'_>, hub: u8) -> Result<(), AllocError>
    ensures { OnOk result
        (homes.new.items ≡ homes.old.items
        ++ homes_from on.now.machine.now hub 0 on.now.machine.now.files) }
{
    let m = on.machine;
    for (file, f) in m.files.as_slice().iter().enumerate() {
        push_file(homes, on, hub, file as u8, f)?;
    }
    Ok(())
}

/// The home registers.
pub fn homes_of(
    alloc: Global,
    on: &TargetMachine<'_>,
    hub: u8,
) -> Result<Items<(u8, u8)>, AllocError>
    ensures { IfOk result (λ homes. homes ≡ homes_of on.now.machine.now hub) }
{
    let mut homes = Vec::new(alloc);
    let m = on.machine;
    if let Some(f) = entry_at(m.files.as_slice(), hub) {
        push_registers(&mut homes, hub, 3, f.size)?;
    }
    push_files(&mut homes, on, hub)?;
    Ok(Items::of(homes))
}
