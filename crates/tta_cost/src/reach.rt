//! Whether moves reach a destination, and what they bring.

ghost use Rattle.std.specs.Prelude.{◌≡◌, ◌+◌, ◌<◌, ◌^◌, if◌then◌else◌, map, filter, length};
ghost use Rattle.std.specs.List.{range_with_len};
ghost use Rattle.tta_arch.specs.Joins.{is_dest_on};
ghost use Rattle.tta_arch.specs.Layout.{fields_of};
ghost use Rattle.tta_circuit.specs.Circuit as c;
ghost use Rattle.tta_cost.specs.Chains.{bits_of, cut, first_cost};
ghost use Rattle.tta_cost.specs.Depths.{cost_of};
ghost use Rattle.tta_hardware.specs.Chains.{any_of};
ghost use Rattle.tta_hardware.specs.Signals as s;
ghost use Rattle.tta_hardware.specs.Wires as w;

use crate::buses::{acts_line, word_line};
use crate::fields::{dest_line, is_code};
use crate::on::On;
use tta_arch::{BusFields, Dest, is_dest_on};
use tta_measure::Cost;

/// Whether the move of a bus brings its word to a destination.
fn hits(on: &On<'_>, bus: usize, f: &BusFields, _dst: Dest) -> Cost
    requires { f.now ≡ fields_of on.now.m.now bus }
    ensures { let T = on.now.applied.now in let M = on.now.m.now in
        result ≡ cost_of T M (w.hits M _dst bus) }
{
    let test = is_code(dest_line(on, bus, f));
    acts_line(on, bus, f).gate(test)
}

/// Whether one of some buses brings its word to a destination.
fn reached_from(on: &On<'_>, bus: usize, buses: &[BusFields], dst: Dest) -> Cost
    requires room { bus + length buses.now < 2 ^ 64 }
    requires fields { buses.now ≡ map (fields_of on.now.m.now)
        (range_with_len bus (length buses.now)) }
    ensures { let T = on.now.applied.now in let M = on.now.m.now in
        result ≡ cost_of T M (any_of (map (w.hits M dst)
        (filter (λ b. is_dest_on M b dst) (range_with_len bus (length buses.now))))) }
{
    match buses {
        [] => Cost::free(),
        [f, rest @ ..] => {
            if !is_dest_on(on.m, bus, dst) {
                return reached_from(on, bus + 1, rest, dst);
            }
            let more = reached_from(on, bus + 1, rest, dst);
            hits(on, bus, f, dst).gate(more)
        }
    }
}

/// Whether a move reaches a destination.
#[tactic(auto, using(crate::proofs::Layouts::layout_fields, crate::proofs::Layouts::layout_count))]
pub fn reached(on: &On<'_>, dst: Dest) -> Cost
    ensures { let T = on.now.applied.now in let M = on.now.m.now in
        result ≡ cost_of T M (w.reached M dst) }
{
    reached_from(on, 0, on.layout.buses.as_slice(), dst)
}

/// The word of a bus, or its lowest bit, where it is read.
fn brought(on: &On<'_>, bus: usize, f: &BusFields, one_bit: bool) -> Cost
    requires { f.now ≡ fields_of on.now.m.now bus }
    ensures cost { let T = on.now.applied.now in let M = on.now.m.now in
        result ≡ cost_of T M (cut one_bit (c.Signal (s.Word bus))) }
    ensures bits { bits_of on.now.m.now (cut one_bit (c.Signal (s.Word bus)))
        ≡ (if one_bit then 1 else 32) }
{
    word_line(on, bus, f)
}

/// How many bits that word has.
fn brought_bits(one_bit: bool) -> u64
    ensures { result ≡ (if one_bit then 1 else 32) }
{
    if one_bit { 1 } else { 32 }
}

/// What some buses can bring to a destination, each after the test whether it does, before another
/// word.
fn arrivals_from(
    on: &On<'_>,
    bus: usize,
    buses: &[BusFields],
    dst: Dest,
    one_bit: bool,
    other: Cost,
) -> Cost
    requires room { bus + length buses.now < 2 ^ 64 }
    requires fields { buses.now ≡ map (fields_of on.now.m.now)
        (range_with_len bus (length buses.now)) }
    ensures { let T = on.now.applied.now in let M = on.now.m.now in
        result ≡ first_cost T M (map (λ b. (w.hits M dst b, cut one_bit (c.Signal (s.Word b))))
        (filter (λ b. is_dest_on M b dst) (range_with_len bus (length buses.now)))) other }
{
    match buses {
        [] => other,
        [f, rest @ ..] => {
            let more = arrivals_from(on, bus + 1, rest, dst, one_bit, other);
            if !is_dest_on(on.m, bus, dst) {
                return more;
            }
            let word = brought(on, bus, f, one_bit);
            Cost::choice(brought_bits(one_bit), hits(on, bus, f, dst), word, more)
        }
    }
}

/// What the buses can bring to a destination, or its lowest bit, each after the test whether it does,
/// before another word.
#[tactic(auto, using(crate::proofs::Layouts::layout_fields, crate::proofs::Layouts::layout_count))]
pub fn arrivals(on: &On<'_>, dst: Dest, one_bit: bool, other: Cost) -> Cost
    ensures { let T = on.now.applied.now in let M = on.now.m.now in
        result ≡ first_cost T M (map (λ b. (w.hits M dst b, cut one_bit (c.Signal (s.Word b))))
        (w.buses_to M dst)) other }
{
    arrivals_from(on, 0, on.layout.buses.as_slice(), dst, one_bit, other)
}
