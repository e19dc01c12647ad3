//! The parts of a machine, and those at a place.

ghost use Rattle.std.specs.Prelude.{◌≡◌, ◌≤◌, Some, IfSome, length, nat_lt, option_copied};
ghost use Rattle.std.specs.Prelude.{slice_get, true};
ghost use Rattle.std.specs.List.{list_all};
ghost use Rattle.tta_parse.specs.Steps.{only_if};
ghost use Rattle.tta_arch.specs.Rules.{IsMachine, is_bus};

use tta_arch::{Bus, File, ImmUnit, Machine, Template, Unit};

/// The buses of a machine.
fn buses_of(m: &Machine) -> &[Bus]
    ensures all { result.now ≡ m.now.buses }
    ensures rules { list_all is_bus result.now ≡ true }
{
    m.buses.as_slice()
}

/// The bus at a place.
pub fn bus_at(m: &Machine, place: u8) -> Option<&Bus>
    ensures all { option_copied result ≡ slice_get m.now.buses place }
    ensures rules { IfSome result (λ b. is_bus b.now ≡ true) }
{
    buses_of(m).get(usize::from(place))
}

/// The files of a machine.
pub fn files_of(m: &Machine) -> &[File]
    ensures all { result.now ≡ m.now.files }
    ensures few { length result.now ≤ 8 }
{
    m.files.as_slice()
}

/// The immediate units of a machine.
pub fn imms_of(m: &Machine) -> &[ImmUnit]
    ensures all { result.now ≡ m.now.imms }
    ensures few { length result.now ≤ 4 }
{
    m.imms.as_slice()
}

/// The units of a machine.
pub fn units_of(m: &Machine) -> &[Unit]
    ensures all { result.now ≡ m.now.units }
    ensures few { length result.now ≤ 32 }
    ensures rules { IsMachine m.now }
{
    m.units.as_slice()
}

/// The templates of a machine.
pub fn templates_of(m: &Machine) -> &[Template]
    ensures all { result.now ≡ m.now.templates }
    ensures few { length result.now ≤ 8 }
{
    m.templates.as_slice()
}

/// The file at a place.
pub fn file_at(m: &Machine, place: u8) -> Option<&File>
    ensures { option_copied result ≡ slice_get m.now.files place }
{
    files_of(m).get(usize::from(place))
}

/// The immediate unit at a place.
pub fn imm_at(m: &Machine, place: u8) -> Option<&ImmUnit>
    ensures { option_copied result ≡ slice_get m.now.imms place }
{
    imms_of(m).get(usize::from(place))
}

/// The unit at a place.
pub fn unit_at(m: &Machine, place: u8) -> Option<&Unit>
    ensures { option_copied result ≡ slice_get m.now.units place }
{
    units_of(m).get(usize::from(place))
}

/// The template at a place.
pub fn template_at(m: &Machine, place: u8) -> Option<&Template>
    ensures { option_copied result ≡ slice_get m.now.templates place }
{
    templates_of(m).get(usize::from(place))
}

/// The index of a register, where so many registers have it.
pub fn index_below(index: u32, size: u8) -> Option<u8>
    ensures { result ≡ only_if (nat_lt index size) (Some index) }
{
    if index < u32::from(size) {
        Some(index as u8)
    } else {
        None
    }
}
