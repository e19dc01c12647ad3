//! The ports of the module, and what they show.

ghost use Rattle.std.specs.Prelude.{◌≡◌, ◌++◌, [], if◌then◌else◌, OnOk};
ghost use Rattle.tta_rtl.specs.Module as p;
ghost use Rattle.tta_verilog.specs.Circuits.{range};

use crate::on::On;
use std::alloc::AllocError;
use tta_verilog::{push_range, push_text};

/// Puts a text where a test holds.
pub fn push_if(out: &mut Vec<u8>, test: bool, text: &[u8]) -> Result<(), AllocError>
    ensures { OnOk result
        (out.new.items ≡ out.old.items ++ (if test then text.now else [])) }
{
    if test { push_text(out, text) } else { Ok(()) }
}

/// Puts the first line of a module of some name, which names the ports.
pub fn push_head(out: &mut Vec<u8>, name: &[u8], gives: bool, takes: bool) -> Result<(), AllocError>
    ensures { OnOk result (out.new.items ≡ out.old.items ++ p.head_text name.now gives takes) }
{
    push_text(out, b"module ")?;
    push_text(out, name)?;
    push_text(out, b" (clk, reset, halted, cycle, pc")?;
    push_if(out, gives, b", out_valid, out_data, out_ready")?;
    push_if(out, takes, b", in_valid, in_data, in_ready")?;
    push_text(out, b");\n")
}

/// Puts how many bits an address has.
fn push_address_range(out: &mut Vec<u8>, on: &On<'_>) -> Result<(), AllocError>
    ensures { OnOk result
        (out.new.items ≡ out.old.items ++ range on.now.m.now.control.address) }
{
    let m = on.m;
    push_range(out, u32::from(m.control.address))
}

/// Puts the ports of all machines. A port of one bit has a range, too.
pub fn push_common_ports(out: &mut Vec<u8>, on: &On<'_>) -> Result<(), AllocError>
    ensures { OnOk result (out.new.items ≡ out.old.items ++ p.common_ports on.now.m.now) }
{
    push_text(
        out,
        b"input clk;\ninput [0:0] reset;\noutput [0:0] halted;\noutput [0:0] cycle;\noutput ",
    )?;
    push_address_range(out, on)?;
    push_text(out, b"pc;\n")
}

/// Puts the ports of the output, or what stands for the input of the circuit that belongs to it.
pub fn push_out_ports(out: &mut Vec<u8>, gives: bool) -> Result<(), AllocError>
    ensures { OnOk result (out.new.items ≡ out.old.items ++ p.out_ports gives) }
{
    if gives {
        push_text(
            out,
            b"output [0:0] out_valid;\noutput [31:0] out_data;\ninput [0:0] out_ready;\n",
        )
    } else {
        push_text(out, b"wire [0:0] out_ready = 1'd0;\n")
    }
}

/// Puts the ports of the input, or what stands for the inputs of the circuit that belong to it.
pub fn push_in_ports(out: &mut Vec<u8>, takes: bool) -> Result<(), AllocError>
    ensures { OnOk result (out.new.items ≡ out.old.items ++ p.in_ports takes) }
{
    if takes {
        push_text(
            out,
            b"input [0:0] in_valid;\ninput [31:0] in_data;\noutput [0:0] in_ready;\n",
        )
    } else {
        push_text(
            out,
            b"wire [0:0] in_valid = 1'd0;\nwire [31:0] in_data = 32'd0;\n",
        )
    }
}

/// Puts what the ports show.
pub fn push_shown(out: &mut Vec<u8>, gives: bool, takes: bool) -> Result<(), AllocError>
    ensures { OnOk result (out.new.items ≡ out.old.items ++ p.shown_text gives takes) }
{
    let output =
        b"assign out_valid = (!(reset))&&((!(n_halted))&&(n_gives));\nassign out_data = n_put;\n";
    let input = b"assign in_ready = (!(reset))&&((!(n_halted))&&(n_asks));\n";
    push_text(
        out,
        b"assign halted = n_halted;\nassign cycle = n_goes;\nassign pc = n_pc;\n",
    )?;
    push_if(out, gives, output)?;
    push_if(out, takes, input)?;
    push_text(out, b"endmodule\n")
}
