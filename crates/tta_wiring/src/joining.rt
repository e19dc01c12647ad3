//! The modules of cores and queues, as the module that joins them names them.

ghost use Rattle.std.specs.Prelude.{◌≡◌, ◌++◌, OnOk};
ghost use Rattle.std.specs.List.{flat_map};
ghost use Rattle.tta_wiring.specs.Queues.{numbered};
ghost use Rattle.tta_wiring.specs.Signals as s;
ghost use Rattle.tta_wiring.specs.Top as p;

use crate::queue::push_numbered;
use std::alloc::AllocError;
use tta_verilog::push_text;

/// Puts a port that is joined to a signal of a core.
#[tactic(auto, unfolding(crate::specs::Top::bound))]
fn push_joint(out: &mut Vec<u8>, port: &[u8], signal: &[u8], core: u8) -> Result<(), AllocError>
    ensures { OnOk result (out.new.items ≡ out.old.items
        ++ p.bound port.now (numbered signal.now core)) }
{
    push_text(out, b", .")?;
    push_text(out, port)?;
    push_text(out, b"(")?;
    push_numbered(out, signal, core)?;
    push_text(out, b")")
}

/// Puts that a module begins anew where all do.
#[tactic(auto, unfolding(crate::specs::Top::bound))]
fn push_reset(out: &mut Vec<u8>) -> Result<(), AllocError>
    ensures { OnOk result (out.new.items ≡ out.old.items ++ p.joint_text (s.ResetOf, s.Reset)) }
{
    push_text(out, b", .reset(reset)")
}

/// Puts the ports of the module of a core.
fn push_core_joints(out: &mut Vec<u8>, core: u8) -> Result<(), AllocError>
    ensures { OnOk result (out.new.items ≡ out.old.items
        ++ flat_map p.joint_text (s.core_joints core)) }
{
    push_reset(out)?;
    push_joint(out, b"halted", b"halted_", core)?;
    push_joint(out, b"cycle", b"cycle_", core)?;
    push_joint(out, b"out_valid", b"valid_", core)?;
    push_joint(out, b"out_data", b"word_", core)?;
    push_joint(out, b"out_ready", b"ready_", core)?;
    push_joint(out, b"in_valid", b"has_word_", core)?;
    push_joint(out, b"in_data", b"first_", core)?;
    push_joint(out, b"in_ready", b"asks_", core)
}

/// Puts the ports of the module of the queue before a core.
fn push_queue_joints(out: &mut Vec<u8>, core: u8) -> Result<(), AllocError>
    ensures { OnOk result (out.new.items ≡ out.old.items
        ++ flat_map p.joint_text (s.queue_joints core)) }
{
    push_reset(out)?;
    push_joint(out, b"in_valid", b"fed_", core)?;
    push_joint(out, b"in_data", b"comes_", core)?;
    push_joint(out, b"in_ready", b"room_", core)?;
    push_joint(out, b"out_valid", b"has_word_", core)?;
    push_joint(out, b"out_data", b"first_", core)?;
    push_joint(out, b"out_ready", b"takes_", core)
}

/// Puts the module of a core.
#[tactic(auto, unfolding(crate::specs::Top::core_text))]
pub fn push_core(out: &mut Vec<u8>, core: u8) -> Result<(), AllocError>
    ensures { OnOk result (out.new.items ≡ out.old.items ++ p.core_text core) }
{
    push_numbered(out, b"tta_core_", core)?;
    push_numbered(out, b" core_", core)?;
    push_text(out, b" (.clk(clk), .pc()")?;
    push_core_joints(out, core)?;
    push_text(out, b");\n")
}

/// Puts the module of the queue before a core.
#[tactic(auto, unfolding(crate::specs::Top::queue_text))]
pub fn push_queue(out: &mut Vec<u8>, core: u8) -> Result<(), AllocError>
    ensures { OnOk result (out.new.items ≡ out.old.items ++ p.queue_text core) }
{
    push_numbered(out, b"tta_queue_", core)?;
    push_numbered(out, b" queue_", core)?;
    push_text(out, b" (.clk(clk)")?;
    push_queue_joints(out, core)?;
    push_text(out, b");\n")
}
