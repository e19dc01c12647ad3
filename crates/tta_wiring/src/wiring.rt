//! The wires of the module that joins cores by queues.

ghost use Rattle.std.specs.Prelude.{◌≡◌, ◌≤◌, ◌+◌, ◌++◌, codes, length, OnOk};
ghost use Rattle.tta_verilog.specs.Expressions as e;
ghost use Rattle.tta_verilog.specs.Circuits as v;
ghost use Rattle.tta_wiring.specs.Queues.{numbered};
ghost use Rattle.tta_wiring.specs.Signals as s;
ghost use Rattle.tta_wiring.specs.Top as p;

use crate::queue::push_numbered;
use std::alloc::AllocError;
use tta_verilog::{push_constant, push_range, push_text};

/// Whether a core is the feeder.
fn is_feeder(feeder: u8, feed: Option<u8>) -> bool
    ensures { result ≡ s.is_feeder feeder feed }
{
    match feed {
        Some(core) => core == feeder,
        None => false,
    }
}

/// Puts how the line of a wire of a core begins.
#[tactic(auto, unfolding(crate::specs::Top::wire_start))]
pub fn start_wire(out: &mut Vec<u8>, what: &[u8], core: u8, width: u32) -> Result<(), AllocError>
    ensures { OnOk result (out.new.items ≡ out.old.items
        ++ p.wire_start (numbered what.now core) width) }
{
    push_text(out, b"wire ")?;
    push_range(out, width)?;
    push_numbered(out, what, core)?;
    push_text(out, b" = ")
}

/// Puts whether two signals of a core are set.
#[tactic(auto, unfolding(tta_verilog::specs::Expressions::between))]
pub fn push_both(out: &mut Vec<u8>, one: &[u8], other: &[u8], core: u8) -> Result<(), AllocError>
    ensures { OnOk result (out.new.items ≡ out.old.items
        ++ e.between (codes "&&") (numbered one.now core) (numbered other.now core)) }
{
    push_text(out, b"(")?;
    push_numbered(out, one, core)?;
    push_text(out, b")&&(")?;
    push_numbered(out, other, core)?;
    push_text(out, b")")
}

/// Puts whether each queue that a core feeds has room, of those from a number on.
#[tactic(auto, unfolding(tta_verilog::specs::Expressions::between))]
fn push_rooms(
    out: &mut Vec<u8>,
    feeder: u8,
    core: u8,
    feeds: &[Option<u8>],
) -> Result<(), AllocError>
    requires { core + length feeds.now ≤ 255 }
    ensures { OnOk result (out.new.items ≡ out.old.items
        ++ e.expression s.joint_names (s.rooms_of feeder core feeds.now)) }
{
    match feeds {
        [] => push_constant(out, 1, 1),
        [feed, rest @ ..] => {
            if !is_feeder(feeder, *feed) {
                return push_rooms(out, feeder, core + 1, rest);
            }
            push_text(out, b"(")?;
            push_numbered(out, b"room_", core)?;
            push_text(out, b")&&(")?;
            push_rooms(out, feeder, core + 1, rest)?;
            push_text(out, b")")
        }
    }
}

/// Puts the wire that says whether two signals of a core are set.
#[tactic(auto, unfolding(crate::specs::Top::wire_start, tta_verilog::specs::Circuits::wire_line))]
fn push_pair(
    out: &mut Vec<u8>,
    name: &[u8],
    one: &[u8],
    other: &[u8],
    core: u8,
) -> Result<(), AllocError>
    ensures { OnOk result (out.new.items ≡ out.old.items ++ v.wire_line (numbered name.now core) 1
        (e.between (codes "&&") (numbered one.now core) (numbered other.now core))) }
{
    start_wire(out, name, core, 1)?;
    push_both(out, one, other, core)?;
    push_text(out, b";\n")
}

/// Puts the wire that says whether each queue that a core feeds has room.
#[tactic(auto, unfolding(crate::specs::Top::wire_start, tta_verilog::specs::Circuits::wire_line))]
fn push_room_wire(out: &mut Vec<u8>, feeds: &[Option<u8>], core: u8) -> Result<(), AllocError>
    requires { length feeds.now ≤ 255 }
    ensures { OnOk result (out.new.items ≡ out.old.items
        ++ v.wire_line (numbered (codes "rooms_") core) 1
        (e.expression s.joint_names (s.rooms_of core 0 feeds.now))) }
{
    start_wire(out, b"rooms_", core, 1)?;
    push_rooms(out, core, 0, feeds)?;
    push_text(out, b";\n")
}

/// Puts the wires of a core, where this core feeds each.
#[tactic(auto, unfolding(crate::specs::Top::core_wires_text))]
pub fn push_core_wires(out: &mut Vec<u8>, feeds: &[Option<u8>], core: u8) -> Result<(), AllocError>
    requires { length feeds.now ≤ 255 }
    ensures { OnOk result (out.new.items ≡ out.old.items ++ p.core_wires_text feeds.now core) }
{
    push_room_wire(out, feeds, core)?;
    push_pair(out, b"ready_", b"out_ready_", b"rooms_", core)?;
    push_pair(out, b"puts_", b"cycle_", b"valid_", core)?;
    push_pair(out, b"takes_", b"cycle_", b"asks_", core)
}
