//! The wires of control, and of the words that come and go.

ghost use Rattle.std.specs.Prelude.{◌≡◌, ◌++◌, [], ◌∷◌, OnOk};
ghost use Rattle.tta_arch.specs.declared.ends.Dest.TheVariants as dest;
ghost use Rattle.tta_circuit.specs.Circuit as c;
ghost use Rattle.tta_hardware.specs.Signals as s;
ghost use Rattle.tta_hardware.specs.Wires as w;
ghost use Rattle.tta_names.specs.Names.{text_of};
ghost use Rattle.tta_rtl.specs.Texts.{wire_of, wire_start, wires_text};

use crate::on::On;
use crate::reach::{push_arrivals, push_reached};
use crate::starts::{UnitWord, push_starts, push_word_where};
use std::alloc::{AllocError, Global};
use tta_arch::{Dest, Op};
use tta_verilog::{push_constant, push_number, push_part_of, push_range, push_text};

/// Puts how the line of a wire begins.
#[tactic(auto, unfolding(crate::specs::Texts::wire_start))]
pub fn start_wire(out: &mut Vec<u8>, name: &[u8], width: u32) -> Result<(), AllocError>
    ensures { OnOk result (out.new.items ≡ out.old.items ++ wire_start name.now width) }
{
    push_text(out, b"wire ")?;
    push_range(out, width)?;
    push_text(out, name)?;
    push_text(out, b" = ")
}

/// Puts whether a call or a halt acts.
#[tactic(auto, unfolding(tta_verilog::specs::Expressions::between))]
fn push_calls_or_halts(out: &mut Vec<u8>, on: &On<'_>) -> Result<(), AllocError>
    ensures { let M = on.now.m.now in
        OnOk result (out.new.items ≡ out.old.items
        ++ text_of M (c.Either (w.reached M dest.Call) (w.reached M dest.Halt))) }
{
    push_text(out, b"(")?;
    push_reached(out, on, Dest::Call)?;
    push_text(out, b")||(")?;
    push_reached(out, on, Dest::Halt)?;
    push_text(out, b")")
}

/// Puts the test that a control move acts.
#[tactic(auto, unfolding(tta_verilog::specs::Expressions::between))]
fn push_controls_test(out: &mut Vec<u8>, on: &On<'_>) -> Result<(), AllocError>
    ensures { OnOk result (out.new.items ≡ out.old.items
        ++ text_of on.now.m.now (w.made_of on.now.m.now s.Controls)) }
{
    push_text(out, b"(")?;
    push_reached(out, on, Dest::Jump)?;
    push_text(out, b")||(")?;
    push_calls_or_halts(out, on)?;
    push_text(out, b")")
}

/// Puts whether a control move acts.
#[tactic(auto, unfolding(crate::specs::Texts::wire_of, crate::specs::Texts::wire_start, tta_verilog::specs::Circuits::wire_line))]
fn push_controls(out: &mut Vec<u8>, on: &On<'_>) -> Result<(), AllocError>
    ensures { OnOk result (out.new.items ≡ out.old.items ++ wire_of on.now.m.now s.Controls) }
{
    start_wire(out, b"n_controls", 1)?;
    push_controls_test(out, on)?;
    push_text(out, b";\n")
}

/// Puts the address to which a control move leads.
fn push_goal_word(out: &mut Vec<u8>, on: &On<'_>) -> Result<(), AllocError>
    ensures { OnOk result (out.new.items ≡ out.old.items
        ++ text_of on.now.m.now (w.made_of on.now.m.now s.GoalNow)) }
{
    push_arrivals(out, on, Dest::Jump)?;
    push_arrivals(out, on, Dest::Call)?;
    push_text(out, b"n_goal")
}

/// Puts the wire of that address.
#[tactic(auto, unfolding(crate::specs::Texts::wire_of, crate::specs::Texts::wire_start, tta_verilog::specs::Circuits::wire_line))]
fn push_goal(out: &mut Vec<u8>, on: &On<'_>) -> Result<(), AllocError>
    ensures { OnOk result (out.new.items ≡ out.old.items ++ wire_of on.now.m.now s.GoalNow) }
{
    start_wire(out, b"n_goal_now", 32)?;
    push_goal_word(out, on)?;
    push_text(out, b";\n")
}

/// Puts whether the control move that is under way halts.
#[tactic(auto, unfolding(crate::specs::Texts::wire_of, crate::specs::Texts::wire_start, tta_verilog::specs::Circuits::wire_line, tta_verilog::specs::Expressions::choice))]
fn push_ends(out: &mut Vec<u8>, on: &On<'_>) -> Result<(), AllocError>
    ensures { OnOk result (out.new.items ≡ out.old.items ++ wire_of on.now.m.now s.EndsNow) }
{
    start_wire(out, b"n_ends_now", 1)?;
    push_text(out, b"(n_controls)?(")?;
    push_reached(out, on, Dest::Halt)?;
    push_text(out, b"):n_ends;\n")
}

/// Puts the test that a control move takes effect at this clock.
fn push_landing(out: &mut Vec<u8>, on: &On<'_>) -> Result<(), AllocError>
    ensures { OnOk result (out.new.items ≡ out.old.items
        ++ text_of on.now.m.now (w.landing on.now.m.now)) }
{
    let m = on.m;
    if m.control.delay == 0 {
        return push_text(out, b"n_controls");
    }
    push_text(out, b"n_underway_")?;
    push_number(out, 1)
}

/// Puts the wire of that test.
#[tactic(auto, unfolding(crate::specs::Texts::wire_of, crate::specs::Texts::wire_start, tta_verilog::specs::Circuits::wire_line))]
fn push_lands(out: &mut Vec<u8>, on: &On<'_>) -> Result<(), AllocError>
    ensures { OnOk result (out.new.items ≡ out.old.items ++ wire_of on.now.m.now s.Lands) }
{
    start_wire(out, b"n_lands", 1)?;
    push_landing(out, on)?;
    push_text(out, b";\n")
}

/// Puts whether a word of the input is asked for.
#[tactic(auto, unfolding(crate::specs::Texts::wire_of, crate::specs::Texts::wire_start, tta_verilog::specs::Circuits::wire_line))]
fn push_asks(alloc: Global, out: &mut Vec<u8>, on: &On<'_>) -> Result<(), AllocError>
    ensures { OnOk result (out.new.items ≡ out.old.items ++ wire_of on.now.m.now s.Asks) }
{
    start_wire(out, b"n_asks", 1)?;
    push_starts(alloc, out, on.m, Op::Take)?;
    push_text(out, b";\n")
}

/// Puts whether a word is to be put out.
#[tactic(auto, unfolding(crate::specs::Texts::wire_of, crate::specs::Texts::wire_start, tta_verilog::specs::Circuits::wire_line))]
fn push_gives(alloc: Global, out: &mut Vec<u8>, on: &On<'_>) -> Result<(), AllocError>
    ensures { OnOk result (out.new.items ≡ out.old.items ++ wire_of on.now.m.now s.Gives) }
{
    start_wire(out, b"n_gives", 1)?;
    push_starts(alloc, out, on.m, Op::Out)?;
    push_text(out, b";\n")
}

/// Puts the test that this clock carries the instruction out.
#[tactic(auto, unfolding(tta_verilog::specs::Expressions::between, tta_verilog::specs::Expressions::negated))]
pub fn push_goes_test(out: &mut Vec<u8>, on: &On<'_>) -> Result<(), AllocError>
    ensures { OnOk result (out.new.items ≡ out.old.items
        ++ text_of on.now.m.now (w.made_of on.now.m.now s.Goes)) }
{
    push_text(
        out,
        b"(!(reset))&&((!(n_halted))&&(((!(n_asks))||(in_valid))&&((!(n_gives))||(out_ready))))",
    )
}

/// Puts whether this clock carries the instruction out.
#[tactic(auto, unfolding(crate::specs::Texts::wire_of, crate::specs::Texts::wire_start, tta_verilog::specs::Circuits::wire_line))]
fn push_goes(out: &mut Vec<u8>, on: &On<'_>) -> Result<(), AllocError>
    ensures { OnOk result (out.new.items ≡ out.old.items ++ wire_of on.now.m.now s.Goes) }
{
    start_wire(out, b"n_goes", 1)?;
    push_goes_test(out, on)?;
    push_text(out, b";\n")
}

/// Puts the address to which the control move leads that takes effect.
fn push_landed(out: &mut Vec<u8>, on: &On<'_>, address: u32) -> Result<(), AllocError>
    ensures { OnOk result (out.new.items ≡ out.old.items
        ++ text_of on.now.m.now (c.Slice 0 address (c.Signal s.GoalNow))) }
{
    push_part_of(out, b"n_goal_now", 0, address)
}

/// Puts the address after that of the instruction.
#[tactic(auto, unfolding(tta_verilog::specs::Expressions::between))]
fn push_following(out: &mut Vec<u8>, on: &On<'_>, address: u32) -> Result<(), AllocError>
    ensures { OnOk result (out.new.items ≡ out.old.items
        ++ text_of on.now.m.now (c.Plus address (c.Signal s.Pc) (c.Const address 1))) }
{
    push_text(out, b"(n_pc)+(")?;
    push_constant(out, address, 1)?;
    push_text(out, b")")
}

/// Puts the test that a control move takes effect that does not halt.
#[tactic(auto, unfolding(tta_verilog::specs::Expressions::between, tta_verilog::specs::Expressions::negated))]
pub fn push_leads(out: &mut Vec<u8>, on: &On<'_>) -> Result<(), AllocError>
    ensures { OnOk result (out.new.items ≡ out.old.items ++ text_of on.now.m.now
        (c.Both (c.Signal s.Lands) (c.Not (c.Signal s.EndsNow)))) }
{
    push_text(out, b"(n_lands)&&(!(n_ends_now))")
}

/// Puts the address of the instruction that comes next.
#[tactic(auto, unfolding(tta_verilog::specs::Expressions::choice))]
fn push_sequel(out: &mut Vec<u8>, on: &On<'_>, address: u32) -> Result<(), AllocError>
    requires { address ≡ on.now.m.now.control.address }
    ensures { OnOk result (out.new.items ≡ out.old.items
        ++ text_of on.now.m.now (w.next_pc on.now.m.now)) }
{
    push_text(out, b"(")?;
    push_leads(out, on)?;
    push_text(out, b")?(")?;
    push_landed(out, on, address)?;
    push_text(out, b"):")?;
    push_following(out, on, address)
}

/// Puts the address at which the next instruction is fetched.
#[tactic(auto, unfolding(tta_verilog::specs::Expressions::choice))]
fn push_next_address(out: &mut Vec<u8>, on: &On<'_>, address: u32) -> Result<(), AllocError>
    requires { address ≡ on.now.m.now.control.address }
    ensures { OnOk result (out.new.items ≡ out.old.items
        ++ text_of on.now.m.now (w.made_of on.now.m.now s.NextPc)) }
{
    push_text(out, b"(reset)?(")?;
    push_constant(out, address, 0)?;
    push_text(out, b"):")?;
    push_sequel(out, on, address)
}

/// Puts the wire of that address.
#[tactic(auto, unfolding(crate::specs::Texts::wire_of, crate::specs::Texts::wire_start, tta_verilog::specs::Circuits::wire_line))]
fn push_next_pc(out: &mut Vec<u8>, on: &On<'_>) -> Result<(), AllocError>
    ensures { OnOk result (out.new.items ≡ out.old.items ++ wire_of on.now.m.now s.NextPc) }
{
    let m = on.m;
    let address = u32::from(m.control.address);
    start_wire(out, b"n_next_pc", address)?;
    push_next_address(out, on, address)?;
    push_text(out, b";\n")
}

/// Puts whether this clock puts a word out.
#[tactic(auto, unfolding(crate::specs::Texts::wire_of, crate::specs::Texts::wire_start, tta_verilog::specs::Circuits::wire_line, tta_verilog::specs::Expressions::between))]
fn push_puts(out: &mut Vec<u8>, on: &On<'_>) -> Result<(), AllocError>
    ensures { OnOk result (out.new.items ≡ out.old.items ++ wire_of on.now.m.now s.Puts) }
{
    start_wire(out, b"n_puts", 1)?;
    push_text(out, b"(n_goes)&&(n_gives);\n")
}

/// Puts the word that it puts out.
#[tactic(auto, unfolding(crate::specs::Texts::wire_of, crate::specs::Texts::wire_start, tta_verilog::specs::Circuits::wire_line))]
fn push_put(alloc: Global, out: &mut Vec<u8>, on: &On<'_>) -> Result<(), AllocError>
    ensures { OnOk result (out.new.items ≡ out.old.items ++ wire_of on.now.m.now s.PutWord) }
{
    start_wire(out, b"n_put", 32)?;
    push_word_where(alloc, out, on.m, Op::Out, UnitWord::Trigger)?;
    push_text(out, b";\n")
}

/// Puts what control does, and whether words are asked for and put out.
pub fn push_steering(alloc: Global, out: &mut Vec<u8>, on: &On<'_>) -> Result<(), AllocError>
    ensures { OnOk result (out.new.items ≡ out.old.items ++ wires_text on.now.m.now
        (s.Controls ∷ s.GoalNow ∷ s.EndsNow ∷ s.Lands ∷ s.Asks ∷ s.Gives ∷ [])) }
{
    push_controls(out, on)?;
    push_goal(out, on)?;
    push_ends(out, on)?;
    push_lands(out, on)?;
    push_asks(alloc, out, on)?;
    push_gives(alloc, out, on)
}

/// Puts the wires that read whether this clock carries the instruction out, or stand behind it.
pub fn push_outcome(alloc: Global, out: &mut Vec<u8>, on: &On<'_>) -> Result<(), AllocError>
    ensures { OnOk result (out.new.items ≡ out.old.items
        ++ wires_text on.now.m.now (s.NextPc ∷ s.Puts ∷ s.PutWord ∷ [])) }
{
    push_next_pc(out, on)?;
    push_puts(out, on)?;
    push_put(alloc, out, on)
}

/// Puts the wires of control, and of the words that come and go.
pub fn push_control(alloc: Global, out: &mut Vec<u8>, on: &On<'_>) -> Result<(), AllocError>
    ensures { OnOk result (out.new.items ≡ out.old.items ++ wires_text on.now.m.now
        (s.Controls ∷ s.GoalNow ∷ s.EndsNow ∷ s.Lands ∷ s.Asks ∷ s.Gives ∷ s.Goes ∷ s.NextPc
        ∷ s.Puts ∷ s.PutWord ∷ [])) }
{
    push_steering(alloc, out, on)?;
    push_goes(out, on)?;
    push_outcome(alloc, out, on)
}
