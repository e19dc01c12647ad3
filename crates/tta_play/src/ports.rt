//! The ports of a machine, each with the buses that it joins.

ghost use Rattle.std.specs.Prelude.{◌≡◌, ◌++◌, OnOk};
ghost use Rattle.std.specs.List.{flat_map};
ghost use Rattle.tta_play.specs.Ports.{buses_of, control_ports, file_ports, imm_port, port_text};
ghost use Rattle.tta_play.specs.Ports.{ports_text, some_port_text, unit_ports};

use crate::words::push_number;
use std::alloc::AllocError;
use tta_arch::{File, ImmUnit, Machine, Unit};

/// The buses that a socket joins, bit k for bus k.
fn buses_of(m: &Machine, socket: u8) -> u16
    ensures { result ≡ buses_of m.now socket }
{
    match m.sockets.as_slice().get(usize::from(socket)) {
        None => 0,
        Some(s) => s.buses,
    }
}

/// Puts a port: its part's name, which of the part's ports it is, and its buses.
#[tactic(auto, unfolding(crate::specs::Ports::port_text))]
fn push_port(
    out: &mut Vec<u8>,
    m: &Machine,
    name: &[u8],
    which: &[u8],
    socket: u8,
) -> Result<(), AllocError>
    ensures { OnOk result
        (out.new.items ≡ out.old.items ++ port_text m.now name.now which.now socket) }
{
    out.extend_from_slice(b"port ")?;
    out.extend_from_slice(name)?;
    out.extend_from_slice(b" ")?;
    out.extend_from_slice(which)?;
    out.extend_from_slice(b" ")?;
    push_number(out, u64::from(buses_of(m, socket)))?;
    out.extend_from_slice(b"\n")
}

/// Puts a port that a part may not have.
fn push_some_port(
    out: &mut Vec<u8>,
    m: &Machine,
    name: &[u8],
    which: &[u8],
    socket: Option<u8>,
) -> Result<(), AllocError>
    ensures { OnOk result
        (out.new.items ≡ out.old.items ++ some_port_text m.now name.now which.now socket) }
{
    match socket {
        None => Ok(()),
        Some(socket) => push_port(out, m, name, which, socket),
    }
}

/// Puts the ports of a file.
fn push_file(out: &mut Vec<u8>, m: &Machine, f: &File) -> Result<(), AllocError>
    ensures { OnOk result (out.new.items ≡ out.old.items ++ file_ports m.now f.now) }
{
    push_port(out, m, f.name.as_bytes(), b"r", f.out)?;
    push_port(out, m, f.name.as_bytes(), b"w", f.into)
}

/// Puts the ports of files.
fn push_files(out: &mut Vec<u8>, m: &Machine, files: &[File]) -> Result<(), AllocError>
    ensures { OnOk result
        (out.new.items ≡ out.old.items ++ flat_map (file_ports m.now) files.now) }
{
    for f in files {
        push_file(out, m, f)?;
    }
    Ok(())
}

/// Puts the ports of immediate units.
fn push_imms(out: &mut Vec<u8>, m: &Machine, imms: &[ImmUnit]) -> Result<(), AllocError>
    ensures { OnOk result
        (out.new.items ≡ out.old.items ++ flat_map (imm_port m.now) imms.now) }
{
    for i in imms {
        push_port(out, m, i.name.as_bytes(), b"r", i.out)?;
    }
    Ok(())
}

/// Puts the ports of a unit.
fn push_unit(out: &mut Vec<u8>, m: &Machine, q: &Unit) -> Result<(), AllocError>
    ensures { OnOk result (out.new.items ≡ out.old.items ++ unit_ports m.now q.now) }
{
    push_some_port(out, m, q.name.as_bytes(), b"o", q.operand)?;
    push_port(out, m, q.name.as_bytes(), b"t", q.trigger)?;
    push_some_port(out, m, q.name.as_bytes(), b"r", q.result)
}

/// Puts the ports of units.
fn push_units(out: &mut Vec<u8>, m: &Machine, units: &[Unit]) -> Result<(), AllocError>
    ensures { OnOk result
        (out.new.items ≡ out.old.items ++ flat_map (unit_ports m.now) units.now) }
{
    for q in units {
        push_unit(out, m, q)?;
    }
    Ok(())
}

/// Puts the ports of control.
fn push_control(out: &mut Vec<u8>, m: &Machine) -> Result<(), AllocError>
    ensures { OnOk result (out.new.items ≡ out.old.items ++ control_ports m.now) }
{
    push_port(out, m, b"gcu", b"t", m.control.trigger)?;
    push_some_port(out, m, b"gcu", b"ra", m.control.ra)
}

/// Puts the ports of a machine.
#[tactic(auto, unfolding(crate::specs::Ports::ports_text))]
pub fn push_ports(out: &mut Vec<u8>, m: &Machine) -> Result<(), AllocError>
    ensures { OnOk result (out.new.items ≡ out.old.items ++ ports_text m.now) }
{
    push_files(out, m, m.files.as_slice())?;
    push_imms(out, m, m.imms.as_slice())?;
    push_units(out, m, m.units.as_slice())?;
    push_control(out, m)
}
