//! The names of a machine's parts.

ghost use Rattle.std.specs.Prelude.{◌≡◌, ◌++◌, codes, OnOk};
ghost use Rattle.std.specs.List.{flat_map};
ghost use Rattle.tta_play.specs.Statement.{name_text, names_text};

use std::alloc::AllocError;
use tta_arch::{Bus, File, ImmUnit, Machine, Unit};

/// Puts a part of a machine: what it is, and its name.
#[tactic(auto, unfolding(crate::specs::Statement::name_text))]
fn push_name(out: &mut Vec<u8>, what: &[u8], name: &[u8]) -> Result<(), AllocError>
    ensures { OnOk result (out.new.items ≡ out.old.items ++ name_text what.now name.now) }
{
    out.extend_from_slice(what)?;
    out.extend_from_slice(name)?;
    out.extend_from_slice(b"\n")
}

/// Puts the names of buses.
fn push_buses(out: &mut Vec<u8>, buses: &[Bus]) -> Result<(), AllocError>
    ensures { OnOk result (out.new.items
        ≡ out.old.items ++ flat_map (λ b. name_text (codes "bus ") b.name) buses.now) }
{
    for b in buses {
        push_name(out, b"bus ", b.name.as_bytes())?;
    }
    Ok(())
}

/// Puts the names of files.
fn push_files(out: &mut Vec<u8>, files: &[File]) -> Result<(), AllocError>
    ensures { OnOk result (out.new.items
        ≡ out.old.items ++ flat_map (λ f. name_text (codes "file ") f.name) files.now) }
{
    for f in files {
        push_name(out, b"file ", f.name.as_bytes())?;
    }
    Ok(())
}

/// Puts the names of immediate units.
fn push_imms(out: &mut Vec<u8>, imms: &[ImmUnit]) -> Result<(), AllocError>
    ensures { OnOk result (out.new.items
        ≡ out.old.items ++ flat_map (λ i. name_text (codes "imm ") i.name) imms.now) }
{
    for i in imms {
        push_name(out, b"imm ", i.name.as_bytes())?;
    }
    Ok(())
}

/// Puts the names of units.
fn push_units(out: &mut Vec<u8>, units: &[Unit]) -> Result<(), AllocError>
    ensures { OnOk result (out.new.items
        ≡ out.old.items ++ flat_map (λ q. name_text (codes "unit ") q.name) units.now) }
{
    for q in units {
        push_name(out, b"unit ", q.name.as_bytes())?;
    }
    Ok(())
}

/// Puts the names of a machine's buses, files, immediate units and units.
#[tactic(auto, unfolding(crate::specs::Statement::names_text))]
pub fn push_names(out: &mut Vec<u8>, m: &Machine) -> Result<(), AllocError>
    ensures { OnOk result (out.new.items ≡ out.old.items ++ names_text m.now) }
{
    push_buses(out, m.buses.as_slice())?;
    push_files(out, m.files.as_slice())?;
    push_imms(out, m.imms.as_slice())?;
    push_units(out, m.units.as_slice())
}
