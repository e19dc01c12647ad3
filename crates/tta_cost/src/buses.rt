//! What the buses carry.

ghost use Rattle.std.specs.Prelude.{◌≡◌, ◌+◌, ◌<◌, ◌^◌, ◌==◌, map, length};
ghost use Rattle.tta_arch.specs.Effects.{width_of};
ghost use Rattle.tta_arch.specs.Layout.{fields_of};
ghost use Rattle.tta_arch.specs.declared.ends.Source.TheVariants as source;
ghost use Rattle.tta_circuit.specs.Circuit as c;
ghost use Rattle.tta_cost.specs.Chains.{bits_of};
ghost use Rattle.tta_cost.specs.Depths.{cost_of};
ghost use Rattle.tta_hardware.specs.Chains.{pick_from};
ghost use Rattle.tta_hardware.specs.Signals as s;
ghost use Rattle.tta_hardware.specs.Wires as w;

use crate::fields::{is_guard, is_source, short_line, tag_line};
use crate::on::On;
use crate::results::port_line;
use tta_arch::{BusFields, Guard, GuardRef, Machine, Source};
use tta_measure::Cost;

/// How many bits a register of a file has.
pub fn file_width(m: &Machine, file: u8) -> u8
    ensures { result ≡ width_of m.now file }
{
    match m.files.as_slice().get(usize::from(file)) {
        None => 32,
        Some(f) => f.width,
    }
}

/// How many bits the word of a source has.
fn source_bits(on: &On<'_>, src: Source) -> u64
    ensures { let M = on.now.m.now in result ≡ bits_of M (w.source_word M src) }
{
    match src {
        Source::Reg { file, .. } => match file_width(on.m, file) {
            1 => 32,
            width => u64::from(width),
        },
        Source::Imm { .. } | Source::Shown { .. } | Source::Ra | Source::Value(_) => 32,
    }
}

/// A register of a file as a word.
#[tactic(auto, using(crate::proofs::Depths::known))]
fn register_word(on: &On<'_>, src: Source, file: u8, index: u8) -> Cost
    requires { src ≡ source.Reg file index }
    ensures { let T = on.now.applied.now in let M = on.now.m.now in
        result ≡ cost_of T M (w.source_word M src) }
{
    if file_width(on.m, file) == 1 {
        Cost::free().beside(Cost::free())
    } else {
        Cost::free()
    }
}

/// The word of a source that is no short word.
#[tactic(auto, using(crate::proofs::Depths::known))]
fn source_word(on: &On<'_>, src: Source) -> Cost
    ensures { let T = on.now.applied.now in let M = on.now.m.now in
        result ≡ cost_of T M (w.source_word M src) }
{
    match src {
        Source::Reg { file, index } => register_word(on, src, file, index),
        Source::Imm { .. } | Source::Ra | Source::Value(_) => Cost::free(),
        Source::Shown { unit } => port_line(on, unit),
    }
}

/// The word of the source whose code stands in a bus's field, the first of these having the code k.
fn pick_source(on: &On<'_>, bus: usize, width: u32, k: u64, sources: &[Source]) -> Cost
    requires { k + length sources.now < 2 ^ 64 }
    ensures { let T = on.now.applied.now in let M = on.now.m.now in
        result ≡ cost_of T M (pick_from width (c.Signal (s.Fetched (s.SourceOf bus))) k
        (map (w.source_word M) sources.now) w.nothing) }
{
    match sources {
        [] => Cost::free(),
        [src, rest @ ..] => {
            let more = pick_source(on, bus, width, k + 1, rest);
            let test = is_source(on, bus, width, k);
            Cost::choice(source_bits(on, *src), test, source_word(on, *src), more)
        }
    }
}

/// The word of a bus.
pub fn bus_word(on: &On<'_>, bus: usize, f: &BusFields) -> Cost
    requires { f.now ≡ fields_of on.now.m.now bus }
    ensures { let T = on.now.applied.now in let M = on.now.m.now in
        result ≡ cost_of T M (w.bus_word M bus) }
{
    let picked = pick_source(on, bus, f.payload_width, 0, f.sources.as_slice());
    Cost::choice(32, tag_line(on, bus), short_line(on, bus), picked)
}

/// The word of a bus, where it is read.
#[tactic(auto, using(crate::proofs::Depths::line_is))]
pub fn word_line(on: &On<'_>, bus: usize, f: &BusFields) -> Cost
    requires { f.now ≡ fields_of on.now.m.now bus }
    ensures { let T = on.now.applied.now in let M = on.now.m.now in
        result ≡ cost_of T M (c.Signal (s.Word bus)) }
{
    bus_word(on, bus, f).read()
}

/// How many bits a guard's register has: a guard that is turned has one.
fn guard_bits(on: &On<'_>, g: GuardRef) -> u64
    ensures { let M = on.now.m.now in result ≡ bits_of M (w.passing g) }
{
    if g.inverted {
        1
    } else {
        u64::from(file_width(on.m, g.file))
    }
}

/// Whether a guard lets its move act.
#[tactic(auto, using(crate::proofs::Depths::known))]
fn passing(on: &On<'_>, g: GuardRef) -> Cost
    ensures { let T = on.now.applied.now in let M = on.now.m.now in
        result ≡ cost_of T M (w.passing g) }
{
    Cost::free()
}

/// Whether the guard whose code stands in a bus's field lets a move act, the first of these having
/// the code k.
fn pick_guard(on: &On<'_>, bus: usize, width: u32, k: u64, guards: &[Guard]) -> Cost
    requires { k + length guards.now < 2 ^ 64 }
    ensures { let T = on.now.applied.now in let M = on.now.m.now in
        result ≡ cost_of T M (pick_from width (c.Signal (s.Fetched (s.GuardOf bus))) k
        (map (λ g. w.passing g.on) guards.now) w.never) }
{
    match guards {
        [] => Cost::free(),
        [g, rest @ ..] => {
            let more = pick_guard(on, bus, width, k + 1, rest);
            let test = is_guard(on, bus, width, k);
            Cost::choice(guard_bits(on, g.on), test, passing(on, g.on), more)
        }
    }
}

/// Whether the move of a bus acts, if there is one.
pub fn bus_acts(on: &On<'_>, bus: usize, f: &BusFields) -> Cost
    requires { f.now ≡ fields_of on.now.m.now bus }
    ensures { let T = on.now.applied.now in let M = on.now.m.now in
        result ≡ cost_of T M (w.bus_acts M bus) }
{
    if f.guard_width == 0 {
        return Cost::free();
    }
    let guards = pick_guard(on, bus, f.guard_width, 1, f.guards.as_slice());
    let test = is_guard(on, bus, f.guard_width, 0);
    Cost::choice(1, test, Cost::free(), guards)
}

/// Whether the move of a bus acts, if there is one, where it is read.
#[tactic(auto, using(crate::proofs::Depths::line_is))]
pub fn acts_line(on: &On<'_>, bus: usize, f: &BusFields) -> Cost
    requires { f.now ≡ fields_of on.now.m.now bus }
    ensures { let T = on.now.applied.now in let M = on.now.m.now in
        result ≡ cost_of T M (c.Signal (s.Acts bus)) }
{
    bus_acts(on, bus, f).read()
}
