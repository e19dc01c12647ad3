//! The first two rules: the file through which all words go, and the words that reach it.

ghost use Rattle.std.specs.Prelude.{◌≡◌, None};
ghost use Rattle.std.specs.List.{list_any};
ghost use Rattle.tta_arch.specs.declared.ends.Source.TheVariants as source;
ghost use Rattle.tta_connect.specs.Coverage.{is_hub, hub_of, into, some_bus, buses_of};
ghost use Rattle.tta_connect.specs.Coverage.{brings_all, has_words};

use crate::ends::{from, into, some_bus};
use crate::target_machine::TargetMachine;
use tta_arch::{File, Machine, Source, is_dest_on};

/// Whether a file can be the hub.
fn is_hub(on: &TargetMachine<'_>, file: u8, f: &File) -> bool
    ensures { result ≡ is_hub on.now.machine.now file f.now }
{
    f.width == 32 && 3 <= f.size && some_bus(on, from(file), into(file), None)
}

/// The hub.
pub fn hub_of(on: &TargetMachine<'_>) -> Option<u8>
    ensures { result ≡ hub_of on.now.machine.now }
{
    let m = on.machine;
    for (file, f) in m.files.as_slice().iter().enumerate() {
        if is_hub(on, file as u8, f) {
            return Some(file as u8);
        }
    }
    None
}

/// Whether a bus brings each word to the hub.
fn brings_all(m: &Machine, hub: u8, bus: usize) -> bool
    ensures { result ≡ brings_all m.now hub bus }
{
    match m.buses.as_slice().get(bus) {
        None => false,
        Some(b) => b.short == 32 && is_dest_on(m, bus, into(hub)),
    }
}

/// Whether some bus brings each word to the hub.
fn any_brings_all(m: &Machine, hub: u8) -> bool
    ensures { result ≡ list_any (brings_all m.now hub) (buses_of m.now) }
{
    let mut buses = 0..m.buses.len();
    buses.any(|bus| brings_all(m, hub, bus))
}

/// Whether a register that a template writes is joined to the hub.
fn any_long(on: &TargetMachine<'_>, hub: u8) -> bool
    ensures { result ≡ list_any
        (λ t. some_bus on.now.machine.now (source.Imm t.imm t.reg) (into hub) None)
        on.now.machine.now.templates }
{
    let m = on.machine;
    m.templates.as_slice().iter().any(|t| {
        let src = Source::Imm {
            unit: t.imm,
            index: t.reg,
        };
        some_bus(on, src, into(hub), None)
    })
}

/// Whether each word reaches the hub.
pub fn has_words(on: &TargetMachine<'_>, hub: u8) -> bool
    ensures { result ≡ has_words on.now.machine.now hub }
{
    any_brings_all(on.machine, hub) || any_long(on, hub)
}
