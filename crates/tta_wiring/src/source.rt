//! What the queue before a core is offered.

ghost use Rattle.std.specs.Prelude.{◌≡◌, ◌++◌, codes, OnOk};
ghost use Rattle.tta_verilog.specs.Expressions as e;
ghost use Rattle.tta_verilog.specs.Circuits as v;
ghost use Rattle.tta_wiring.specs.Queues.{numbered};
ghost use Rattle.tta_wiring.specs.Signals as s;
ghost use Rattle.tta_wiring.specs.Top as p;

use crate::part::Source;
use crate::queue::push_numbered;
use crate::wiring::start_wire;
use std::alloc::AllocError;
use tta_list::entry_at;
use tta_verilog::{push_constant, push_text};

/// Where the words of a core come from that takes words or not, where this core feeds it.
fn source_of(takes: bool, feed: Option<u8>) -> Source
    ensures { result ≡ s.source_of takes feed }
{
    match feed {
        Some(core) => Source::Feeder(core),
        None => {
            if takes {
                Source::Outside
            } else {
                Source::Nothing
            }
        }
    }
}

/// Which core feeds a core, if one does.
fn feeder_at(feeds: &[Option<u8>], core: u8) -> Option<u8>
    ensures { result ≡ s.feeder_at feeds.now core }
{
    match entry_at(feeds, core) {
        Some(feed) => *feed,
        None => None,
    }
}

/// Where the words of a core come from, of those of which this core feeds each.
pub fn source_at(feeds: &[Option<u8>], core: u8, takes: bool) -> Source
    ensures { result ≡ s.source_at feeds.now core takes }
{
    source_of(takes, feeder_at(feeds, core))
}

/// Whether words come from outside.
pub fn is_outside(source: Source) -> bool
    ensures { result ≡ s.is_outside source }
{
    match source {
        Source::Feeder(_) => false,
        Source::Outside => true,
        Source::Nothing => false,
    }
}

/// Puts whether the queue before a core is offered a word.
fn push_fed(out: &mut Vec<u8>, core: u8, source: Source) -> Result<(), AllocError>
    ensures { OnOk result (out.new.items ≡ out.old.items
        ++ e.expression s.joint_names (s.fed_by core source)) }
{
    match source {
        Source::Feeder(feeder) => push_numbered(out, b"puts_", feeder),
        Source::Outside => push_numbered(out, b"in_valid_", core),
        Source::Nothing => push_constant(out, 1, 0),
    }
}

/// Puts that word.
fn push_comes(out: &mut Vec<u8>, core: u8, source: Source) -> Result<(), AllocError>
    ensures { OnOk result (out.new.items ≡ out.old.items
        ++ e.expression s.joint_names (s.comes_by core source)) }
{
    match source {
        Source::Feeder(feeder) => push_numbered(out, b"word_", feeder),
        Source::Outside => push_numbered(out, b"in_data_", core),
        Source::Nothing => push_constant(out, 32, 0),
    }
}

/// Puts the wire that says whether the queue before a core is offered a word.
#[tactic(auto, unfolding(crate::specs::Top::wire_start, tta_verilog::specs::Circuits::wire_line))]
fn push_fed_wire(out: &mut Vec<u8>, core: u8, source: Source) -> Result<(), AllocError>
    ensures { OnOk result (out.new.items ≡ out.old.items
        ++ v.wire_line (numbered (codes "fed_") core) 1
        (e.expression s.joint_names (s.fed_by core source))) }
{
    start_wire(out, b"fed_", core, 1)?;
    push_fed(out, core, source)?;
    push_text(out, b";\n")
}

/// Puts the wire of that word.
#[tactic(auto, unfolding(crate::specs::Top::wire_start, tta_verilog::specs::Circuits::wire_line))]
fn push_comes_wire(out: &mut Vec<u8>, core: u8, source: Source) -> Result<(), AllocError>
    ensures { OnOk result (out.new.items ≡ out.old.items
        ++ v.wire_line (numbered (codes "comes_") core) 32
        (e.expression s.joint_names (s.comes_by core source))) }
{
    start_wire(out, b"comes_", core, 32)?;
    push_comes(out, core, source)?;
    push_text(out, b";\n")
}

/// Puts the wires of the queue before a core: whether it is offered a word, and that word.
#[tactic(auto, unfolding(crate::specs::Top::queue_wires_text))]
pub fn push_queue_wires(out: &mut Vec<u8>, core: u8, source: Source) -> Result<(), AllocError>
    ensures { OnOk result (out.new.items ≡ out.old.items ++ p.queue_wires_text core source) }
{
    push_fed_wire(out, core, source)?;
    push_comes_wire(out, core, source)
}
