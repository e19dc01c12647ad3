//! The layout of a machine's instructions: how wide each field is, and what its codes mean.

ghost use Rattle.std.specs.Prelude.{◌≡◌, ◌<◌, ◌≤◌, ◌^◌, if◌then◌else◌, length, IfOk};
ghost use Rattle.std.specs.List.{sum_by};
ghost use Rattle.tta_arch.specs.Joins.{has_bit};
ghost use Rattle.tta_arch.specs.Fields.{width_for, all_sources, all_dests};
ghost use Rattle.tta_arch.specs.Layout.{fields_of, layout_of, width_of_set};

use crate::codes::{all_dests, all_sources};
use crate::ends::{Dest, Source};
use crate::joins::{dests_on, guards_on, has_bus, sources_on};
use crate::machine::Machine;
use crate::parts::Guard;
use std::alloc::{AllocError, Global};
use tta_list::Items;

/// The fields of a bus. A width is a number of bits.
#[derive(Drop)]
pub struct BusFields {
    /// The guards of the bus in the order of their codes from 1; code 0 is no guard.
    pub guards: Items<Guard>,
    /// The sources of the bus, but for short words, in the order of their codes from 0.
    pub sources: Items<Source>,
    /// The destinations of the bus in the order of their codes from 1; code 0 is an empty slot.
    pub dests: Items<Dest>,
    pub guard_width: u32,
    /// How many bits a short word has.
    pub short_width: u32,
    /// How many bits a short word or a source's code has, whichever is longer.
    pub payload_width: u32,
    pub dest_width: u32,
    /// How many bits all fields of the bus have, with the tag bit of its source.
    pub width: u32,
}

/// The layout of a machine's instructions.
#[derive(Drop)]
pub struct Layout {
    /// How many bits the template's field has.
    pub template_width: u32,
    /// The fields of each bus.
    pub buses: Items<BusFields>,
    /// How many bits an instruction has.
    pub width: u32,
}

/// The least number of bits that can tell so many codes apart.
fn width_for(codes: usize) -> u32
    ensures least { result ≡ width_for codes }
    ensures small { result ≤ 64 }
{
    let highest = codes.saturating_sub(1);
    for width in 0..64 {
        if highest >> width == 0 {
            return width;
        }
    }
    64
}

impl BusFields {
    /// The fields of a bus of a machine, whose sources and destinations these are.
    fn of(
        alloc: Global,
        m: &Machine,
        bus: usize,
        sources: &[Source],
        dests: &[Dest],
    ) -> Result<BusFields, AllocError>
        requires within { bus < length m.now.buses }
        requires sources { sources.now ≡ all_sources m.now }
        requires dests { dests.now ≡ all_dests m.now }
        ensures value { IfOk result (λ f. f ≡ fields_of m.now bus) }
        ensures small { IfOk result (λ f. f.width ≤ 448) }
    {
        let guards = guards_on(alloc, m, bus)?;
        let sources = sources_on(alloc, m, bus, sources)?;
        let dests = dests_on(alloc, m, bus, dests)?;
        let guards = Items::of(guards);
        let sources = Items::of(sources);
        let dests = Items::of(dests);
        let short_width = u32::from(m.buses.as_slice()[bus].short);
        let guard_width = width_for(1 + guards.len());
        let payload_width = short_width.max(width_for(sources.len()));
        let dest_width = width_for(1 + dests.len());
        Ok(BusFields {
            guards,
            sources,
            dests,
            guard_width,
            short_width,
            payload_width,
            dest_width,
            width: guard_width + (1 + payload_width) + dest_width,
        })
    }
}

impl Layout {
    /// The layout of a machine.
    pub fn of(alloc: Global, m: &Machine) -> Result<Layout, AllocError>
        ensures { IfOk result (λ l. l ≡ layout_of m.now) }
    {
        let sources = all_sources(alloc, m)?;
        let dests = all_dests(alloc, m)?;
        let template_width = width_for(1 + m.templates.len());
        let mut width = template_width;
        let mut buses = Vec::new(alloc);
        for bus in 0..m.buses.len() {
            let fields = BusFields::of(alloc, m, bus, sources.as_slice(), dests.as_slice())?;
            width += fields.width;
            buses.push(fields)?;
        }
        Ok(Layout {
            template_width,
            buses: Items::of(buses),
            width,
        })
    }

    /// How many bits an instruction has.
    pub fn width(&self) -> u32
        ensures { result ≡ self.now.width }
    {
        self.width
    }

    /// How many bits the buses of a set have. Bit k of the set stands for bus k.
    pub fn width_of_set(&self, set: u16) -> u32
        requires { sum_by (λ f. f.width) self.now.buses < 2 ^ 32 }
        ensures { result ≡ width_of_set self.now set }
    {
        let buses = self.buses.as_slice();
        let mut width = 0;
        for (bus, fields) in buses.iter().enumerate() {
            width += width_in_set(set, bus, fields);
        }
        width
    }
}

/// How many bits a bus has where it is in a set, 0 where it is not.
fn width_in_set(set: u16, bus: usize, fields: &BusFields) -> u32
    ensures { result ≡ (if has_bit set bus then fields.now.width else 0) }
{
    if has_bus(set, bus) { fields.width } else { 0 }
}
