//! The registers of a queue.

ghost use Rattle.std.specs.Prelude.{◌≡◌, ◌+◌, ◌++◌, true, false, codes, OnOk};
ghost use Rattle.std.specs.List.{flat_map};
ghost use Rattle.tta_queue.specs.Queue as q;
ghost use Rattle.tta_verilog.specs.Expressions as e;
ghost use Rattle.tta_verilog.specs.Circuits as v;
ghost use Rattle.tta_wiring.specs.Queues.{pin_names};

use std::alloc::AllocError;
use tta_verilog::{push_constant, push_part_of, push_range, push_text};

/// Puts the part of a pointer that is an address of the memory.
pub fn push_address(out: &mut Vec<u8>, k: u8, pointer: &[u8]) -> Result<(), AllocError>
    ensures { OnOk result (out.new.items ≡ out.old.items ++ e.part pointer.now 0 k) }
{
    push_part_of(out, pointer, 0, u32::from(k))
}

/// Puts the registers that count words and that of the first word, as they are declared.
pub fn push_declared(out: &mut Vec<u8>, k: u8) -> Result<(), AllocError>
    ensures { OnOk result (out.new.items ≡ out.old.items
        ++ flat_map (v.register_text pin_names true) (q.queue_of k 32).registers) }
{
    push_text(out, b"reg ")?;
    push_range(out, 1 + u32::from(k))?;
    push_text(out, b"head;\nreg ")?;
    push_range(out, 1 + u32::from(k))?;
    push_text(out, b"tail;\nreg ")?;
    push_range(out, 32)?;
    push_text(out, b"first;\n")
}

/// Puts what a register that counts takes: 0 where all begins anew, and else its word and one more.
#[tactic(auto, unfolding(tta_verilog::specs::Expressions::choice, tta_verilog::specs::Expressions::between))]
fn push_next(out: &mut Vec<u8>, k: u8, name: &[u8]) -> Result<(), AllocError>
    ensures { OnOk result (out.new.items ≡ out.old.items
        ++ e.choice (codes "reset") (e.constant (1 + k) 0)
        (e.between (codes "+") name.now (e.constant (1 + k) 1))) }
{
    push_text(out, b"(reset)?(")?;
    push_constant(out, 1 + u32::from(k), 0)?;
    push_text(out, b"):(")?;
    push_text(out, name)?;
    push_text(out, b")+(")?;
    push_constant(out, 1 + u32::from(k), 1)?;
    push_text(out, b")")
}

/// Puts what the first of the registers takes at a clock; it counts the words that are given.
#[tactic(auto, unfolding(tta_verilog::specs::Expressions::between))]
fn push_head(out: &mut Vec<u8>, k: u8) -> Result<(), AllocError>
    ensures { OnOk result (out.new.items ≡ out.old.items
        ++ v.next_text pin_names (q.counter k q.Head q.Gives)) }
{
    push_text(out, b"always @(posedge clk) if ((reset)||(gives)) head <= ")?;
    push_next(out, k, b"head")?;
    push_text(out, b";\n")
}

/// Puts what the other takes; it counts the words that are taken.
#[tactic(auto, unfolding(tta_verilog::specs::Expressions::between))]
fn push_tail(out: &mut Vec<u8>, k: u8) -> Result<(), AllocError>
    ensures { OnOk result (out.new.items ≡ out.old.items
        ++ v.next_text pin_names (q.counter k q.Tail q.Takes)) }
{
    push_text(out, b"always @(posedge clk) if ((reset)||(takes)) tail <= ")?;
    push_next(out, k, b"tail")?;
    push_text(out, b";\n")
}

/// Puts what the register of the first word takes at a clock: the word that comes, where it goes to the
/// place of the first, and else the word of the memory there.
#[tactic(auto, unfolding(tta_verilog::specs::Expressions::choice, tta_verilog::specs::Expressions::reading))]
fn push_front(out: &mut Vec<u8>, k: u8) -> Result<(), AllocError>
    ensures { OnOk result (out.new.items ≡ out.old.items ++ v.next_text pin_names (q.front k 32)) }
{
    push_text(out, b"always @(posedge clk) if (")?;
    push_constant(out, 1, 1)?;
    push_text(out, b") first <= (passes)?(in_data):words[")?;
    push_address(out, k, b"next_head")?;
    push_text(out, b"];\n")
}

/// Puts what all of them take at a clock.
pub fn push_taken(out: &mut Vec<u8>, k: u8) -> Result<(), AllocError>
    ensures { OnOk result (out.new.items ≡ out.old.items
        ++ flat_map (v.register_text pin_names false) (q.queue_of k 32).registers) }
{
    push_head(out, k)?;
    push_tail(out, k)?;
    push_front(out, k)
}
