//! The words that result ports show.

ghost use Rattle.std.specs.Prelude.{◌≡◌, ◌+◌, ◌≤◌, ◌++◌, map, length, OnOk};
ghost use Rattle.std.specs.List.{flat_map, range_with_len};
ghost use Rattle.tta_arch.specs.Fields.{numbers};
ghost use Rattle.tta_hardware.specs.Signals as s;
ghost use Rattle.tta_hardware.specs.Wires as w;
ghost use Rattle.tta_names.specs.Names.{text_of};
ghost use Rattle.tta_rtl.specs.Texts.{port_text, wires_text};

use crate::on::On;
use crate::results::push_fresh;
use crate::starts::{UnitWord, push_unit_word};
use crate::unit_wires::start_word;
use std::alloc::AllocError;
use tta_arch::Unit;
use tta_verilog::push_text;

/// Puts the word that the result port of a unit shows.
fn push_port_word(out: &mut Vec<u8>, on: &On<'_>, unit: u8) -> Result<(), AllocError>
    ensures { OnOk result (out.new.items ≡ out.old.items
        ++ text_of on.now.m.now (w.made_of on.now.m.now (s.Port unit))) }
{
    push_fresh(out, on, unit, 1)?;
    push_unit_word(out, on.m, UnitWord::Result, unit)
}

/// Puts the wire of that word.
#[tactic(auto, unfolding(crate::specs::Texts::port_text, crate::specs::Texts::wire_start, tta_verilog::specs::Circuits::wire_line))]
fn push_port(out: &mut Vec<u8>, on: &On<'_>, unit: u8) -> Result<(), AllocError>
    ensures { OnOk result (out.new.items ≡ out.old.items ++ port_text on.now.m.now unit) }
{
    start_word(out, on.m, UnitWord::Shown, unit)?;
    push_port_word(out, on, unit)?;
    push_text(out, b";\n")
}

/// Puts the words that result ports show, of units from one on.
fn push_ports_from(
    out: &mut Vec<u8>,
    on: &On<'_>,
    unit: u8,
    units: &[Unit],
) -> Result<(), AllocError>
    requires few { unit + length units.now ≤ 255 }
    ensures { OnOk result (out.new.items ≡ out.old.items
        ++ flat_map (port_text on.now.m.now) (range_with_len unit (length units.now))) }
{
    match units {
        [] => Ok(()),
        [_, rest @ ..] => {
            push_port(out, on, unit)?;
            push_ports_from(out, on, unit + 1, rest)
        }
    }
}

/// Puts the words that all result ports show.
#[tactic(auto, using(crate::proofs::UnitWires::ports_text))]
pub fn push_ports(out: &mut Vec<u8>, on: &On<'_>) -> Result<(), AllocError>
    ensures { OnOk result (out.new.items ≡ out.old.items ++ wires_text on.now.m.now
        (map s.Port (numbers (length on.now.m.now.units)))) }
{
    let m = on.m;
    push_ports_from(out, on, 0, m.units.as_slice())
}
