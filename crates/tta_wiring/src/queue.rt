//! The module of a queue.

ghost use Rattle.std.specs.Prelude.{◌≡◌, ◌≤◌, ◌+◌, ◌++◌, codes, length, OnOk};
ghost use Rattle.std.specs.List.{flat_map, enumerate_from, AllByRecursion};
ghost use Rattle.tta_queue.specs.Queue as q;
ghost use Rattle.tta_verilog.specs.Expressions as e;
ghost use Rattle.tta_verilog.specs.Circuits as v;
ghost use Rattle.tta_wiring.specs.Queues.{numbered, pin_names, queue_parts, queue_ports};
ghost use Rattle.tta_wiring.specs.Queues.{queue_shown, queue_text};

use crate::registers::{push_address, push_declared, push_taken};
use std::alloc::AllocError;
use tta_list::power_of_two;
use tta_verilog::{push_constant, push_number, push_range, push_text};

/// Puts what is called by a number, too.
#[tactic(auto, unfolding(crate::specs::Queues::numbered))]
pub fn push_numbered(out: &mut Vec<u8>, what: &[u8], n: u8) -> Result<(), AllocError>
    ensures { OnOk result (out.new.items ≡ out.old.items ++ numbered what.now n) }
{
    push_text(out, what)?;
    push_number(out, u64::from(n))
}

// ---- wires

/// Puts how many words there are.
#[tactic(auto, unfolding(tta_verilog::specs::Circuits::wire_line, tta_verilog::specs::Expressions::between))]
fn push_fill(out: &mut Vec<u8>, k: u8) -> Result<(), AllocError>
    ensures { OnOk result (out.new.items ≡ out.old.items ++ v.wire_line (codes "fill") (1 + k)
        (e.between (codes "-") (codes "tail") (codes "head"))) }
{
    push_text(out, b"wire ")?;
    push_range(out, 1 + u32::from(k))?;
    push_text(out, b"fill = (tail)-(head);\n")
}

/// Puts a wire that says whether the number of words is another one.
#[tactic(auto, unfolding(tta_verilog::specs::Circuits::wire_line, tta_verilog::specs::Expressions::between, tta_verilog::specs::Expressions::negated))]
fn push_unless(out: &mut Vec<u8>, k: u8, name: &[u8], count: u64) -> Result<(), AllocError>
    ensures { OnOk result (out.new.items ≡ out.old.items
        ++ v.wire_line name.now 1 (e.expression pin_names (q.unless_filled k count))) }
{
    push_text(out, b"wire ")?;
    push_range(out, 1)?;
    push_text(out, name)?;
    push_text(out, b" = (!(reset))&&(!((fill)==(")?;
    push_constant(out, 1 + u32::from(k), count)?;
    push_text(out, b")));\n")
}

/// Puts a wire that says whether two signals are set.
#[tactic(auto, unfolding(tta_verilog::specs::Circuits::wire_line, tta_verilog::specs::Expressions::between))]
fn push_both(out: &mut Vec<u8>, name: &[u8], one: &[u8], other: &[u8]) -> Result<(), AllocError>
    ensures { OnOk result (out.new.items ≡ out.old.items
        ++ v.wire_line name.now 1 (e.between (codes "&&") one.now other.now)) }
{
    push_text(out, b"wire ")?;
    push_range(out, 1)?;
    push_text(out, name)?;
    push_text(out, b" = (")?;
    push_text(out, one)?;
    push_text(out, b")&&(")?;
    push_text(out, other)?;
    push_text(out, b");\n")
}

/// Puts where the first word stands after the clock.
#[tactic(auto, unfolding(tta_verilog::specs::Circuits::wire_line, tta_verilog::specs::Expressions::choice, tta_verilog::specs::Expressions::between))]
fn push_next_head(out: &mut Vec<u8>, k: u8) -> Result<(), AllocError>
    ensures { OnOk result (out.new.items ≡ out.old.items
        ++ v.wire_line (codes "next_head") (1 + k) (e.choice (codes "gives")
        (e.between (codes "+") (codes "head") (e.constant (1 + k) 1)) (codes "head"))) }
{
    push_text(out, b"wire ")?;
    push_range(out, 1 + u32::from(k))?;
    push_text(out, b"next_head = (gives)?((head)+(")?;
    push_constant(out, 1 + u32::from(k), 1)?;
    push_text(out, b")):head;\n")
}

/// Puts whether the word that is taken goes there.
#[tactic(auto, unfolding(tta_verilog::specs::Circuits::wire_line, tta_verilog::specs::Expressions::between))]
fn push_passes(out: &mut Vec<u8>, k: u8) -> Result<(), AllocError>
    ensures { OnOk result (out.new.items ≡ out.old.items
        ++ v.wire_line (codes "passes") 1 (e.between (codes "&&") (codes "takes")
        (e.between (codes "==") (e.part (codes "tail") 0 k) (e.part (codes "next_head") 0 k)))) }
{
    push_text(out, b"wire ")?;
    push_range(out, 1)?;
    push_text(out, b"passes = (takes)&&((")?;
    push_address(out, k, b"tail")?;
    push_text(out, b")==(")?;
    push_address(out, k, b"next_head")?;
    push_text(out, b"));\n")
}

/// Puts the wires.
fn push_wires(out: &mut Vec<u8>, k: u8) -> Result<(), AllocError>
    requires { k ≤ 16 }
    ensures { OnOk result (out.new.items ≡ out.old.items
        ++ flat_map (v.wire_text pin_names) (q.queue_of k 32).wires) }
{
    push_fill(out, k)?;
    push_unless(out, k, b"has_room", power_of_two(u32::from(k)))?;
    push_unless(out, k, b"has_word", 0)?;
    push_both(out, b"takes", b"in_valid", b"has_room")?;
    push_both(out, b"gives", b"has_word", b"out_ready")?;
    push_next_head(out, k)?;
    push_passes(out, k)
}

// ---- memory

/// Puts that a simulator sets all words to 0; where the text is synthesized they begin so.
#[tactic(auto, unfolding(tta_verilog::specs::Circuits::array_zeros))]
fn push_zeros(out: &mut Vec<u8>, size: u64) -> Result<(), AllocError>
    ensures { OnOk result (out.new.items ≡ out.old.items ++ v.array_zeros (codes "words") 32 size) }
{
    push_text(
        out,
        b"];\ninitial begin\n`ifndef SYNTHESIS\nfor (k = 0; k < ",
    )?;
    push_number(out, size)?;
    push_text(out, b"; k = k + 1) words[k] = ")?;
    push_constant(out, 32, 0)?;
    push_text(out, b";\n`endif\n")
}

/// Puts the memory, whose words are 0 at first.
#[tactic(auto, using(crate::proofs::Memory::memory_is), unfolding(tta_verilog::specs::Circuits::array_start))]
fn push_memories(out: &mut Vec<u8>, k: u8) -> Result<(), AllocError>
    requires { k ≤ 16 }
    ensures { OnOk result (out.new.items ≡ out.old.items
        ++ flat_map (v.memory_text pin_names) (q.queue_of k 32).memories) }
{
    let size = power_of_two(u32::from(k));
    push_text(out, b"reg ")?;
    push_range(out, 32)?;
    push_text(out, b"words [0:")?;
    push_number(out, size - 1)?;
    push_zeros(out, size)?;
    push_text(out, b"end\n")
}

/// Puts where it is written: the word that is taken goes to the place behind the last.
#[tactic(auto, unfolding(tta_verilog::specs::Circuits::write_line))]
fn push_stores(out: &mut Vec<u8>, k: u8) -> Result<(), AllocError>
    ensures { OnOk result (out.new.items ≡ out.old.items
        ++ flat_map (v.store_text pin_names) (q.queue_of k 32).memories) }
{
    push_text(out, b"always @(posedge clk) if (takes) words[")?;
    push_address(out, k, b"tail")?;
    push_text(out, b"] <= in_data;\n")
}

// ---- the module

/// Puts the parts of the circuit of a queue of 2^k words.
fn push_parts(out: &mut Vec<u8>, k: u8) -> Result<(), AllocError>
    requires { k ≤ 16 }
    ensures { OnOk result (out.new.items ≡ out.old.items ++ queue_parts k) }
{
    push_declared(out, k)?;
    push_memories(out, k)?;
    push_wires(out, k)?;
    push_taken(out, k)?;
    push_stores(out, k)
}

/// Puts the ports.
fn push_ports(out: &mut Vec<u8>) -> Result<(), AllocError>
    ensures { OnOk result (out.new.items ≡ out.old.items ++ queue_ports) }
{
    push_text(
        out,
        b" (clk, reset, in_valid, in_data, in_ready, out_valid, out_data, out_ready);\ninput clk;\ninput [0:0] reset;\n",
    )?;
    push_text(
        out,
        b"input [0:0] in_valid;\ninput [31:0] in_data;\noutput [0:0] in_ready;\n",
    )?;
    push_text(
        out,
        b"output [0:0] out_valid;\noutput [31:0] out_data;\ninput [0:0] out_ready;\ninteger k;\n",
    )
}

/// Puts what the ports show.
fn push_shown(out: &mut Vec<u8>) -> Result<(), AllocError>
    ensures { OnOk result (out.new.items ≡ out.old.items ++ queue_shown) }
{
    push_text(
        out,
        b"assign in_ready = has_room;\nassign out_valid = has_word;\nassign out_data = first;\nendmodule\n",
    )
}

/// Puts the queue of 2^k words before a core, as a module.
#[tactic(auto, unfolding(crate::specs::Queues::queue_text))]
fn push_queue(out: &mut Vec<u8>, core: u8, k: u8) -> Result<(), AllocError>
    requires { k ≤ 16 }
    ensures { OnOk result (out.new.items ≡ out.old.items ++ queue_text (core, k)) }
{
    push_text(out, b"module ")?;
    push_numbered(out, b"tta_queue_", core)?;
    push_ports(out)?;
    push_parts(out, k)?;
    push_shown(out)
}

/// Puts the queues before the cores from one on, these being how many words they have, as powers of two.
pub fn push_queues(out: &mut Vec<u8>, core: u8, depths: &[u8]) -> Result<(), AllocError>
    requires few { core + length depths.now ≤ 255 }
    requires sizes { AllByRecursion (λ k. k ≤ 16) depths.now }
    ensures { OnOk result (out.new.items ≡ out.old.items
        ++ flat_map queue_text (enumerate_from core depths.now)) }
{
    match depths {
        [] => Ok(()),
        [k, rest @ ..] => {
            push_queue(out, core, *k)?;
            push_queues(out, core + 1, rest)
        }
    }
}
