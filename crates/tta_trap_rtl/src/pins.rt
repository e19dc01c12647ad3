//! The ports of the module, and what they show.

ghost use Rattle.std.specs.Prelude.{◌≡◌, ◌++◌, [], if◌then◌else◌, OnOk};
ghost use Rattle.tta_names.specs.Names.{text_of};
ghost use Rattle.tta_trap.specs.Pins.{trap_in_ready, trap_out_valid};
ghost use Rattle.tta_trap_rtl.specs.Module as p;

use crate::late::push_fine;
use std::alloc::AllocError;
use tta_arch::Machine;
use tta_rtl::{On, push_common_ports, push_if, push_in_ports, push_out_ports};
use tta_verilog::push_text;

/// Puts the first line of the module, which names the ports.
fn push_head(out: &mut Vec<u8>, gives: bool, takes: bool) -> Result<(), AllocError>
    ensures { OnOk result (out.new.items ≡ out.old.items ++ p.head_text gives takes) }
{
    push_text(
        out,
        b"module tta_core (clk, reset, halted, cycle, pc, fault",
    )?;
    push_if(out, gives, b", out_valid, out_data, out_ready")?;
    push_if(out, takes, b", in_valid, in_data, in_ready")?;
    push_text(out, b");\n")
}

/// Puts what stands before the parts of the circuit.
pub fn push_before(
    out: &mut Vec<u8>,
    on: &On<'_>,
    gives: bool,
    takes: bool,
) -> Result<(), AllocError>
    ensures { OnOk result
        (out.new.items ≡ out.old.items ++ p.before_parts on.now.m.now gives takes) }
{
    push_head(out, gives, takes)?;
    push_common_ports(out, on)?;
    push_text(out, b"output [6:0] fault;\n")?;
    push_out_ports(out, gives)?;
    push_in_ports(out, takes)?;
    push_text(out, b"integer k;\n")
}

/// Puts whether the circuit has a word to put out.
#[tactic(auto, unfolding(tta_verilog::specs::Expressions::between, tta_verilog::specs::Expressions::negated))]
fn push_out_valid(out: &mut Vec<u8>, m: &Machine) -> Result<(), AllocError>
    ensures { OnOk result (out.new.items ≡ out.old.items ++ text_of m.now trap_out_valid) }
{
    push_text(out, b"(")?;
    push_fine(out, m)?;
    push_text(out, b")&&((!(reset))&&((!(n_halted))&&(n_gives)))")
}

/// Puts whether it would take a word.
#[tactic(auto, unfolding(tta_verilog::specs::Expressions::between, tta_verilog::specs::Expressions::negated))]
fn push_in_ready(out: &mut Vec<u8>, m: &Machine) -> Result<(), AllocError>
    ensures { OnOk result (out.new.items ≡ out.old.items ++ text_of m.now trap_in_ready) }
{
    push_text(out, b"(")?;
    push_fine(out, m)?;
    push_text(out, b")&&((!(reset))&&((!(n_halted))&&(n_asks)))")
}

/// Puts what the ports of the output show.
fn push_output_lines(out: &mut Vec<u8>, m: &Machine) -> Result<(), AllocError>
    ensures { OnOk result (out.new.items ≡ out.old.items ++ p.output_lines m.now) }
{
    push_text(out, b"assign out_valid = ")?;
    push_out_valid(out, m)?;
    push_text(out, b";\nassign out_data = n_put;\n")
}

/// Puts that, if the module has these ports.
fn push_output(out: &mut Vec<u8>, m: &Machine, gives: bool) -> Result<(), AllocError>
    ensures { OnOk result
        (out.new.items ≡ out.old.items ++ (if gives then p.output_lines m.now else [])) }
{
    if gives {
        push_output_lines(out, m)
    } else {
        Ok(())
    }
}

/// Puts what those of the input show.
fn push_input_lines(out: &mut Vec<u8>, m: &Machine) -> Result<(), AllocError>
    ensures { OnOk result (out.new.items ≡ out.old.items ++ p.input_lines m.now) }
{
    push_text(out, b"assign in_ready = ")?;
    push_in_ready(out, m)?;
    push_text(out, b";\n")
}

/// Puts that, if the module has these ports.
fn push_input(out: &mut Vec<u8>, m: &Machine, takes: bool) -> Result<(), AllocError>
    ensures { OnOk result
        (out.new.items ≡ out.old.items ++ (if takes then p.input_lines m.now else [])) }
{
    if takes {
        push_input_lines(out, m)
    } else {
        Ok(())
    }
}

/// Puts what the ports show.
pub fn push_shown(
    out: &mut Vec<u8>,
    m: &Machine,
    gives: bool,
    takes: bool,
) -> Result<(), AllocError>
    ensures { OnOk result (out.new.items ≡ out.old.items ++ p.shown_text m.now gives takes) }
{
    push_text(
        out,
        b"assign halted = n_halted;\nassign cycle = n_goes;\nassign pc = n_pc;\nassign fault = n_fault;\n",
    )?;
    push_output(out, m, gives)?;
    push_input(out, m, takes)?;
    push_text(out, b"endmodule\n")
}
