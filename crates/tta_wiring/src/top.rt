//! The module that joins cores by queues.

ghost use Rattle.std.specs.Prelude.{◌≡◌, ◌≤◌, ◌+◌, [], ◌++◌, if◌then◌else◌, length, OnOk};
ghost use Rattle.std.specs.List.{flat_map, enumerate_from};
ghost use Rattle.tta_wiring.specs.Signals as s;
ghost use Rattle.tta_wiring.specs.Top as p;

use crate::joining::{push_core, push_queue};
use crate::part::{Ends, Part, Source};
use crate::queue::push_numbered;
use crate::source::{is_outside, push_queue_wires, source_at};
use crate::wiring::{push_both, push_core_wires};
use std::alloc::AllocError;
use tta_verilog::push_text;

/// Puts the names of the ports of the words of a core.
#[tactic(auto, unfolding(crate::specs::Top::word_names))]
fn push_word_names(out: &mut Vec<u8>, core: u8) -> Result<(), AllocError>
    ensures { OnOk result (out.new.items ≡ out.old.items ++ p.word_names core) }
{
    push_numbered(out, b", out_valid_", core)?;
    push_numbered(out, b", out_data_", core)?;
    push_numbered(out, b", out_ready_", core)
}

/// Puts them where a core can put words out.
fn push_given_names(out: &mut Vec<u8>, core: u8, gives: bool) -> Result<(), AllocError>
    ensures { OnOk result (out.new.items ≡ out.old.items
        ++ (if gives then p.word_names core else [])) }
{
    if gives {
        push_word_names(out, core)
    } else {
        Ok(())
    }
}

/// Puts the names of the ports of the words that a core takes from outside.
#[tactic(auto, unfolding(crate::specs::Top::input_names))]
fn push_input_names(out: &mut Vec<u8>, core: u8) -> Result<(), AllocError>
    ensures { OnOk result (out.new.items ≡ out.old.items ++ p.input_names core) }
{
    push_numbered(out, b", in_valid_", core)?;
    push_numbered(out, b", in_data_", core)?;
    push_numbered(out, b", in_ready_", core)
}

/// Puts them where words come from outside.
fn push_taken_names(out: &mut Vec<u8>, core: u8, source: Source) -> Result<(), AllocError>
    ensures { OnOk result (out.new.items ≡ out.old.items
        ++ (if s.is_outside source then p.input_names core else [])) }
{
    if is_outside(source) {
        push_input_names(out, core)
    } else {
        Ok(())
    }
}

/// Puts the names of the ports of a core, which can put words out or not, and whose words come
/// from here.
#[tactic(auto, unfolding(crate::specs::Top::port_names))]
fn push_port_names(
    out: &mut Vec<u8>,
    core: u8,
    gives: bool,
    source: Source,
) -> Result<(), AllocError>
    ensures { OnOk result (out.new.items ≡ out.old.items ++ p.port_names core gives source) }
{
    push_numbered(out, b", halted_", core)?;
    push_given_names(out, core, gives)?;
    push_taken_names(out, core, source)
}

/// Puts the ports of the words of a core, as they are declared.
#[tactic(auto, unfolding(crate::specs::Top::word_ports))]
fn push_word_ports(out: &mut Vec<u8>, core: u8) -> Result<(), AllocError>
    ensures { OnOk result (out.new.items ≡ out.old.items ++ p.word_ports core) }
{
    push_numbered(out, b";\noutput [0:0] out_valid_", core)?;
    push_numbered(out, b";\noutput [31:0] out_data_", core)?;
    push_numbered(out, b";\ninput [0:0] out_ready_", core)?;
    push_text(out, b";\n")
}

/// Puts that nobody takes words of a core.
#[tactic(auto, unfolding(crate::specs::Top::no_ports))]
fn push_no_ports(out: &mut Vec<u8>, core: u8) -> Result<(), AllocError>
    ensures { OnOk result (out.new.items ≡ out.old.items ++ p.no_ports core) }
{
    push_numbered(out, b";\nwire [0:0] out_ready_", core)?;
    push_text(out, b" = 1'd0;\n")
}

/// Puts the one or the other, as a core can put words out or not.
fn push_given_ports(out: &mut Vec<u8>, core: u8, gives: bool) -> Result<(), AllocError>
    ensures { OnOk result (out.new.items ≡ out.old.items
        ++ (if gives then p.word_ports core else p.no_ports core)) }
{
    if gives {
        push_word_ports(out, core)
    } else {
        push_no_ports(out, core)
    }
}

/// Puts the ports of the words that a core takes from outside, as they are declared.
#[tactic(auto, unfolding(crate::specs::Top::input_ports))]
fn push_input_ports(out: &mut Vec<u8>, core: u8) -> Result<(), AllocError>
    ensures { OnOk result (out.new.items ≡ out.old.items ++ p.input_ports core) }
{
    push_numbered(out, b"input [0:0] in_valid_", core)?;
    push_numbered(out, b";\ninput [31:0] in_data_", core)?;
    push_numbered(out, b";\noutput [0:0] in_ready_", core)?;
    push_text(out, b";\n")
}

/// Puts them where words come from outside.
fn push_taken_ports(out: &mut Vec<u8>, core: u8, source: Source) -> Result<(), AllocError>
    ensures { OnOk result (out.new.items ≡ out.old.items
        ++ (if s.is_outside source then p.input_ports core else [])) }
{
    if is_outside(source) {
        push_input_ports(out, core)
    } else {
        Ok(())
    }
}

/// Puts the ports of a core, as they are declared.
#[tactic(auto, unfolding(crate::specs::Top::ports_text))]
fn push_ports(out: &mut Vec<u8>, core: u8, gives: bool, source: Source) -> Result<(), AllocError>
    ensures { OnOk result (out.new.items ≡ out.old.items ++ p.ports_text core gives source) }
{
    push_numbered(out, b"output [0:0] halted_", core)?;
    push_given_ports(out, core, gives)?;
    push_taken_ports(out, core, source)
}

/// Puts what the ports of the words of a core show.
#[tactic(auto, unfolding(crate::specs::Top::word_shown))]
fn push_word_shown(out: &mut Vec<u8>, core: u8) -> Result<(), AllocError>
    ensures { OnOk result (out.new.items ≡ out.old.items ++ p.word_shown core) }
{
    push_numbered(out, b"assign out_valid_", core)?;
    push_text(out, b" = ")?;
    push_both(out, b"valid_", b"rooms_", core)?;
    push_numbered(out, b";\nassign out_data_", core)?;
    push_numbered(out, b" = word_", core)?;
    push_text(out, b";\n")
}

/// Puts that where a core can put words out.
fn push_given_shown(out: &mut Vec<u8>, core: u8, gives: bool) -> Result<(), AllocError>
    ensures { OnOk result (out.new.items ≡ out.old.items
        ++ (if gives then p.word_shown core else [])) }
{
    if gives {
        push_word_shown(out, core)
    } else {
        Ok(())
    }
}

/// Puts that a word is taken from outside where the queue before the core has room.
#[tactic(auto, unfolding(crate::specs::Top::input_shown))]
fn push_input_shown(out: &mut Vec<u8>, core: u8) -> Result<(), AllocError>
    ensures { OnOk result (out.new.items ≡ out.old.items ++ p.input_shown core) }
{
    push_numbered(out, b"assign in_ready_", core)?;
    push_numbered(out, b" = room_", core)?;
    push_text(out, b";\n")
}

/// Puts what the ports of a core show.
fn push_shown(out: &mut Vec<u8>, core: u8, gives: bool, source: Source) -> Result<(), AllocError>
    ensures { OnOk result (out.new.items ≡ out.old.items ++ p.shown_text core gives source) }
{
    push_given_shown(out, core, gives)?;
    if is_outside(source) {
        push_input_shown(out, core)
    } else {
        Ok(())
    }
}

/// Puts the wires that the module of a core and that of the queue before it drive.
#[tactic(auto, unfolding(crate::specs::Top::driven_text))]
fn push_driven(out: &mut Vec<u8>, core: u8) -> Result<(), AllocError>
    ensures { OnOk result (out.new.items ≡ out.old.items ++ p.driven_text core) }
{
    push_numbered(out, b"wire [0:0] cycle_", core)?;
    push_numbered(out, b";\nwire [0:0] valid_", core)?;
    push_numbered(out, b";\nwire [31:0] word_", core)?;
    push_numbered(out, b";\nwire [0:0] asks_", core)?;
    push_numbered(out, b";\nwire [0:0] room_", core)?;
    push_numbered(out, b";\nwire [0:0] has_word_", core)?;
    push_numbered(out, b";\nwire [31:0] first_", core)?;
    push_text(out, b";\n")
}

/// Puts what a part says of a core, where this core feeds each.
fn push_part(
    out: &mut Vec<u8>,
    part: Part,
    feeds: &[Option<u8>],
    core: u8,
    ends: Ends,
) -> Result<(), AllocError>
    requires { length feeds.now ≤ 255 }
    ensures { OnOk result (out.new.items ≡ out.old.items
        ++ p.part_text part feeds.now (core, ends)) }
{
    let Ends { gives, takes } = ends;
    let source = source_at(feeds, core, takes);
    match part {
        Part::Names => push_port_names(out, core, gives, source),
        Part::Ports => push_ports(out, core, gives, source),
        Part::Driven => push_driven(out, core),
        Part::Wires => push_core_wires(out, feeds, core),
        Part::Offered => push_queue_wires(out, core, source),
        Part::Shown => push_shown(out, core, gives, source),
        Part::Core => push_core(out, core),
        Part::Queue => push_queue(out, core),
    }
}

/// Puts what a part says of the cores from one on, which have these words.
fn push_each(
    out: &mut Vec<u8>,
    part: Part,
    feeds: &[Option<u8>],
    core: u8,
    ends: &[Ends],
) -> Result<(), AllocError>
    requires feeds { length feeds.now ≤ 255 }
    requires few { core + length ends.now ≤ 255 }
    ensures { OnOk result (out.new.items ≡ out.old.items
        ++ flat_map (p.part_text part feeds.now) (enumerate_from core ends.now)) }
{
    match ends {
        [] => Ok(()),
        [first, rest @ ..] => {
            push_part(out, part, feeds, core, *first)?;
            push_each(out, part, feeds, core + 1, rest)
        }
    }
}

/// Puts the ports of the module that joins cores by queues.
fn push_head(out: &mut Vec<u8>, ends: &[Ends], feeds: &[Option<u8>]) -> Result<(), AllocError>
    requires feeds { length feeds.now ≤ 255 }
    requires few { length ends.now ≤ 255 }
    ensures { OnOk result (out.new.items ≡ out.old.items ++ p.head_text ends.now feeds.now) }
{
    push_text(out, b"module tta_net (clk, reset")?;
    push_each(out, Part::Names, feeds, 0, ends)?;
    push_text(out, b");\ninput clk;\ninput [0:0] reset;\n")?;
    push_each(out, Part::Ports, feeds, 0, ends)
}

/// Puts its wires.
fn push_wires(out: &mut Vec<u8>, ends: &[Ends], feeds: &[Option<u8>]) -> Result<(), AllocError>
    requires feeds { length feeds.now ≤ 255 }
    requires few { length ends.now ≤ 255 }
    ensures { OnOk result (out.new.items ≡ out.old.items ++ p.wires_text ends.now feeds.now) }
{
    push_each(out, Part::Driven, feeds, 0, ends)?;
    push_each(out, Part::Wires, feeds, 0, ends)?;
    push_each(out, Part::Offered, feeds, 0, ends)
}

/// Puts the module that joins cores by queues, which have these words, where this core feeds each.
pub fn push_top(out: &mut Vec<u8>, ends: &[Ends], feeds: &[Option<u8>]) -> Result<(), AllocError>
    requires feeds { length feeds.now ≤ 255 }
    requires few { length ends.now ≤ 255 }
    ensures { OnOk result (out.new.items ≡ out.old.items ++ p.top_text ends.now feeds.now) }
{
    push_head(out, ends, feeds)?;
    push_wires(out, ends, feeds)?;
    push_each(out, Part::Shown, feeds, 0, ends)?;
    push_each(out, Part::Core, feeds, 0, ends)?;
    push_each(out, Part::Queue, feeds, 0, ends)?;
    push_text(out, b"endmodule\n")
}
