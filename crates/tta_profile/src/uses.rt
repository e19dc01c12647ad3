//! How many cycles were made, what was used in them, and how many accesses were outside.

ghost use Rattle.std.specs.Prelude.{◌≡◌, ◌≤◌, ◌++◌, ◌^◌, decimal, length, All, OnOk};
ghost use Rattle.tta_profile.specs.Counts.{most_buses};
ghost use Rattle.tta_profile.specs.Report.{share_text, used_text, bus_text, buses_text, unit_text};
ghost use Rattle.tta_profile.specs.Report.{units_text, uses_text, percent, code_sum, space_text};

use crate::counts::Counts;
use crate::sums::{Test, code_sum, total};
use itoa::Buffer;
use std::alloc::AllocError;
use tta_arch::{Bus, Machine, Unit};
use tta_code::Instruction;

/// Puts a number, in decimal.
pub fn push_number(out: &mut Vec<u8>, n: u128) -> Result<(), AllocError>
    ensures { OnOk result (out.new.items ≡ out.old.items ++ decimal n) }
{
    let mut buffer = Buffer::new();
    out.extend_from_slice(buffer.format(n).as_bytes())
}

/// A share of a whole, in percent, 0 of nothing.
fn percent(part: u128, whole: u128) -> u128
    requires { part ≤ 2 ^ 84 }
    ensures { result ≡ percent part whole }
{
    if whole == 0 { 0 } else { 100 * part / whole }
}

/// Puts a number and its share.
#[tactic(auto, unfolding(crate::specs::Report::share_text))]
pub fn push_share(out: &mut Vec<u8>, part: u128, whole: u128) -> Result<(), AllocError>
    requires { part ≤ 2 ^ 84 }
    ensures { OnOk result (out.new.items ≡ out.old.items ++ share_text part whole) }
{
    push_number(out, part)?;
    out.extend_from_slice(b" share ")?;
    push_number(out, percent(part, whole))
}

/// Puts what a bus or unit is, its name, and how often it was used.
#[tactic(auto, unfolding(crate::specs::Report::used_text))]
fn push_used(
    out: &mut Vec<u8>,
    what: &[u8],
    name: &[u8],
    told: &[u8],
    part: u128,
    whole: u128,
) -> Result<(), AllocError>
    requires { part ≤ 2 ^ 84 }
    ensures { OnOk result (out.new.items
        ≡ out.old.items ++ used_text what.now name.now told.now part whole) }
{
    out.extend_from_slice(what)?;
    out.extend_from_slice(name)?;
    out.extend_from_slice(told)?;
    push_share(out, part, whole)?;
    out.extend_from_slice(b"\n")
}

/// What is told of: code for a machine, its counts, and how many cycles were made.
#[derive(Clone, Copy)]
pub struct Profiled<'a> {
    pub m: &'a Machine,
    pub words: &'a [Instruction],
    pub counts: &'a Counts,
    pub whole: u128,
}

/// How often moves that are asked for were active.
fn sum_of(profiled: &Profiled<'_>, test: Test) -> u128
    requires few { length profiled.now.words.now ≤ 65536 }
    requires low { All (λ i. length i.moves ≤ most_buses) profiled.now.words.now }
    ensures value { result ≡ code_sum profiled.now.counts.now test profiled.now.words.now }
    ensures small { result ≤ 2 ^ 84 }
{
    code_sum(profiled.counts, test, profiled.words)
}

/// Puts a bus, and how many moves it carried.
fn push_bus(out: &mut Vec<u8>, profiled: &Profiled<'_>, bus: u8, b: &Bus) -> Result<(), AllocError>
    requires few { length profiled.now.words.now ≤ 65536 }
    requires low { All (λ i. length i.moves ≤ most_buses) profiled.now.words.now }
    ensures { OnOk result (out.new.items ≡ out.old.items
        ++ bus_text profiled.now.counts.now profiled.now.words.now profiled.now.whole bus b.now) }
{
    let moves = sum_of(profiled, Test::Bus(bus));
    push_used(
        out,
        b"bus ",
        b.name.as_bytes(),
        b" moves ",
        moves,
        profiled.whole,
    )
}

/// Puts buses.
fn push_buses(out: &mut Vec<u8>, profiled: &Profiled<'_>, buses: &[Bus]) -> Result<(), AllocError>
    requires few { length profiled.now.words.now ≤ 65536 }
    requires low { All (λ i. length i.moves ≤ most_buses) profiled.now.words.now }
    requires buses { length buses.now ≤ most_buses }
    ensures { OnOk result (out.new.items ≡ out.old.items
        ++ buses_text profiled.now.counts.now profiled.now.words.now profiled.now.whole buses.now) }
{
    for (bus, b) in buses.iter().enumerate() {
        push_bus(out, profiled, bus as u8, b)?;
    }
    Ok(())
}

/// Puts a unit, and how many of its operations were started.
fn push_unit(
    out: &mut Vec<u8>,
    profiled: &Profiled<'_>,
    unit: u8,
    q: &Unit,
) -> Result<(), AllocError>
    requires few { length profiled.now.words.now ≤ 65536 }
    requires low { All (λ i. length i.moves ≤ most_buses) profiled.now.words.now }
    ensures { OnOk result (out.new.items ≡ out.old.items
        ++ unit_text profiled.now.counts.now profiled.now.words.now profiled.now.whole unit q.now) }
{
    let starts = sum_of(profiled, Test::Unit(unit));
    push_used(
        out,
        b"unit ",
        q.name.as_bytes(),
        b" starts ",
        starts,
        profiled.whole,
    )
}

/// Puts units.
fn push_units(out: &mut Vec<u8>, profiled: &Profiled<'_>, units: &[Unit]) -> Result<(), AllocError>
    requires few { length profiled.now.words.now ≤ 65536 }
    requires low { All (λ i. length i.moves ≤ most_buses) profiled.now.words.now }
    requires units { length units.now ≤ 32 }
    ensures { OnOk result (out.new.items ≡ out.old.items
        ++ units_text profiled.now.counts.now profiled.now.words.now profiled.now.whole units.now) }
{
    for (unit, q) in units.iter().enumerate() {
        push_unit(out, profiled, unit as u8, q)?;
    }
    Ok(())
}

/// Puts how many accesses to a space were outside it.
#[tactic(auto, unfolding(crate::specs::Report::space_text))]
fn push_space(out: &mut Vec<u8>, name: &[u8], counts: &[u64]) -> Result<(), AllocError>
    ensures { OnOk result (out.new.items ≡ out.old.items ++ space_text name.now counts.now) }
{
    out.extend_from_slice(b"outside ")?;
    out.extend_from_slice(name)?;
    out.extend_from_slice(b" ")?;
    push_number(out, total(counts))?;
    out.extend_from_slice(b"\n")
}

/// Puts how many cycles were made, what was used, and how many accesses were outside.
#[tactic(auto, unfolding(crate::specs::Report::uses_text))]
pub fn push_uses(out: &mut Vec<u8>, profiled: &Profiled<'_>) -> Result<(), AllocError>
    requires few { length profiled.now.words.now ≤ 65536 }
    requires low { All (λ i. length i.moves ≤ most_buses) profiled.now.words.now }
    ensures { OnOk result (out.new.items ≡ out.old.items ++ uses_text
        profiled.now.m.now profiled.now.words.now profiled.now.counts.now profiled.now.whole) }
{
    out.extend_from_slice(b"cycles ")?;
    push_number(out, profiled.whole)?;
    out.extend_from_slice(b"\n")?;
    let m = profiled.m;
    push_buses(out, profiled, m.buses.as_slice())?;
    push_units(out, profiled, m.units.as_slice())?;
    push_space(out, b"data", profiled.counts.outside_data())?;
    push_space(out, b"frame", profiled.counts.outside_frame())
}
