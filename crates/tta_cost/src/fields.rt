//! The fields of an instruction, and whether it has a template.

ghost use Rattle.std.specs.Prelude.{◌≡◌, ◌+◌, ◌≤◌, false, length, slice_get};
ghost use Rattle.std.specs.Option.{option_map_or};
ghost use Rattle.tta_arch.specs.Layout.{fields_of};
ghost use Rattle.tta_circuit.specs.Circuit as c;
ghost use Rattle.tta_cost.specs.Depths.{cost_of};
ghost use Rattle.tta_cost.specs.Chains.{AreWide};
ghost use Rattle.tta_hardware.specs.Parts as p;
ghost use Rattle.tta_hardware.specs.Signals as s;
ghost use Rattle.tta_measure.specs.Cost as k;

use crate::on::On;
use tta_arch::{BusFields, Machine, Template, has_bus};
use tta_measure::{Cost, EQUAL};

/// Whether a word is a code.
pub fn is_code(word: Cost) -> Cost
    ensures { result ≡ k.behind 2 (k.beside word k.free) }
{
    word.beside(Cost::free()).behind(EQUAL)
}

/// Whether the source field of a bus has a code.
#[tactic(auto, using(crate::proofs::Depths::known))]
pub fn is_source(on: &On<'_>, bus: usize, _width: u32, _code: u64) -> Cost
    ensures { let T = on.now.applied.now in let M = on.now.m.now in
        result ≡ cost_of T M (c.Equal (c.Signal (s.Fetched (s.SourceOf bus))) (c.Const _width _code)) }
{
    is_code(Cost::free())
}

/// Whether its guard field has one.
#[tactic(auto, using(crate::proofs::Depths::known))]
pub fn is_guard(on: &On<'_>, bus: usize, _width: u32, _code: u64) -> Cost
    ensures { let T = on.now.applied.now in let M = on.now.m.now in
        result ≡ cost_of T M (c.Equal (c.Signal (s.Fetched (s.GuardOf bus))) (c.Const _width _code)) }
{
    is_code(Cost::free())
}

/// Whether the source of a bus is its short field.
#[tactic(auto, using(crate::proofs::Depths::known))]
pub fn tag_line(on: &On<'_>, bus: usize) -> Cost
    ensures { let T = on.now.applied.now in let M = on.now.m.now in
        result ≡ cost_of T M (c.Signal (s.Fetched (s.IsShort bus))) }
{
    Cost::free()
}

/// Whether the instruction has a template.
#[tactic(auto, using(crate::proofs::Depths::known))]
fn has_template(on: &On<'_>, template: u8) -> Cost
    ensures { let T = on.now.applied.now in let M = on.now.m.now in
        result ≡ cost_of T M (p.has_template M (c.Signal s.Whole) template) }
{
    is_code(Cost::free())
}

/// Whether the instruction has a template that takes a bus, of these from one on.
fn takes_from(on: &On<'_>, bus: usize, template: u8, templates: &[Template]) -> Cost
    requires { template + length templates.now ≤ 255 }
    ensures { let T = on.now.applied.now in let M = on.now.m.now in
        result ≡ cost_of T M (p.takes_from M (c.Signal s.Whole) bus template templates.now) }
{
    match templates {
        [] => Cost::free(),
        [t, rest @ ..] => {
            if !has_bus(t.buses, bus) {
                return takes_from(on, bus, template + 1, rest);
            }
            let more = takes_from(on, bus, template + 1, rest);
            has_template(on, template).gate(more)
        }
    }
}

/// The code of the destination of a bus.
#[tactic(auto, using(crate::proofs::Depths::known))]
pub fn dest(on: &On<'_>, bus: usize, f: &BusFields) -> Cost
    requires { f.now ≡ fields_of on.now.m.now bus }
    ensures { let T = on.now.applied.now in let M = on.now.m.now in
        result ≡ cost_of T M (p.field_part M (c.Signal s.Whole) (s.DestOf bus)) }
{
    let m = on.m;
    let takes = takes_from(on, bus, 0, m.templates.as_slice());
    let width = u64::from(f.dest_width);
    Cost::choice(width, takes, Cost::free(), Cost::free())
}

/// The code of the destination of a bus, where it is read.
#[tactic(auto, using(crate::proofs::Depths::line_is))]
pub fn dest_line(on: &On<'_>, bus: usize, f: &BusFields) -> Cost
    requires { f.now ≡ fields_of on.now.m.now bus }
    ensures { let T = on.now.applied.now in let M = on.now.m.now in
        result ≡ cost_of T M (c.Signal (s.Fetched (s.DestOf bus))) }
{
    dest(on, bus, f).read()
}

/// Whether a bus extends short words by their highest bits.
fn is_signed(m: &Machine, bus: usize) -> bool
    ensures { result ≡ option_map_or (λ b. b.signed) (slice_get m.now.buses bus) false }
{
    match m.buses.as_slice().get(bus) {
        Some(b) => b.signed,
        None => false,
    }
}

/// The word of the short field of a bus.
pub fn short(on: &On<'_>, bus: usize) -> Cost
    ensures { let T = on.now.applied.now in let M = on.now.m.now in
        result ≡ cost_of T M (p.field_part M (c.Signal s.Whole) (s.ShortOf bus)) }
{
    on.m.rules();
    if is_signed(on.m, bus) {
        Cost::choice(32, Cost::free(), Cost::free(), Cost::free())
    } else {
        Cost::free()
    }
}

/// The word of the short field of a bus, where it is read.
#[tactic(auto, using(crate::proofs::Depths::line_is))]
pub fn short_line(on: &On<'_>, bus: usize) -> Cost
    ensures { let T = on.now.applied.now in let M = on.now.m.now in
        result ≡ cost_of T M (c.Signal (s.Fetched (s.ShortOf bus))) }
{
    short(on, bus).read()
}

/// The long immediate of the template that the instruction has, of these from one on.
fn long_from(on: &On<'_>, template: u8, templates: &[Template]) -> Cost
    requires few { template + length templates.now ≤ 255 }
    requires wide { AreWide on.now.m.now templates.now }
    ensures { let T = on.now.applied.now in let M = on.now.m.now in
        result ≡ cost_of T M (p.long_from M (c.Signal s.Whole) template templates.now) }
{
    match templates {
        [] => Cost::free(),
        [_, rest @ ..] => {
            let more = long_from(on, template + 1, rest);
            Cost::choice(32, has_template(on, template), Cost::free(), more)
        }
    }
}

/// The long immediate.
#[tactic(auto, using(crate::proofs::Shares::all_wide))]
pub fn long(on: &On<'_>) -> Cost
    ensures { let T = on.now.applied.now in let M = on.now.m.now in
        result ≡ cost_of T M (p.field_part M (c.Signal s.Whole) s.LongOf) }
{
    let m = on.m;
    m.rules();
    long_from(on, 0, m.templates.as_slice())
}

/// The long immediate, where it is read.
#[tactic(auto, using(crate::proofs::Depths::line_is))]
pub fn long_line(on: &On<'_>) -> Cost
    ensures { let T = on.now.applied.now in let M = on.now.m.now in
        result ≡ cost_of T M (c.Signal (s.Fetched s.LongOf)) }
{
    long(on).read()
}
