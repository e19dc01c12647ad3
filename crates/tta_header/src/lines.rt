//! The lines above the text of a circuit.

ghost use Rattle.std.specs.Prelude.{◌≡◌, ◌++◌, [], if◌then◌else◌, OnOk};
ghost use Rattle.hex.specs.Hex.{encode_lower};
ghost use Rattle.tta_header.specs.Header.{code_line, file_line, image_line, machine_line, ports_line};

use sha2::{Digest, Sha256};
use std::alloc::{AllocError, Global};
use tta_verilog::{push_number, push_text};

/// Puts bytes as digits to the base 16.
fn push_bytes(alloc: Global, out: &mut Vec<u8>, bytes: &[u8; 32]) -> Result<(), AllocError>
    ensures { OnOk result (out.new.items ≡ out.old.items ++ encode_lower bytes.now) }
{
    let digits = hex::encode(alloc, bytes.as_slice())?;
    push_text(out, digits.as_bytes())
}

/// Puts the machine, by the digest of its text.
#[tactic(auto, unfolding(crate::specs::Header::machine_line))]
pub fn push_machine(alloc: Global, out: &mut Vec<u8>, digest: &[u8; 32]) -> Result<(), AllocError>
    ensures { OnOk result (out.new.items ≡ out.old.items ++ machine_line digest.now) }
{
    push_text(out, b"// machine: sha256 ")?;
    push_bytes(alloc, out, digest)?;
    push_text(out, b"\n")
}

/// Puts the image, by the digest of its bytes.
#[tactic(auto, unfolding(crate::specs::Header::image_line))]
pub fn push_image(alloc: Global, out: &mut Vec<u8>, image: &[u8]) -> Result<(), AllocError>
    ensures { OnOk result (out.new.items ≡ out.old.items ++ image_line image.now) }
{
    push_text(out, b"// image: sha256 ")?;
    push_bytes(alloc, out, &Sha256::digest(image))?;
    push_text(out, b"\n")
}

/// Puts how many instructions the code has, and how many bits each.
#[tactic(auto, unfolding(crate::specs::Header::code_line))]
pub fn push_code(out: &mut Vec<u8>, words: usize, width: u32) -> Result<(), AllocError>
    ensures { OnOk result (out.new.items ≡ out.old.items ++ code_line words width) }
{
    push_text(out, b"// code: ")?;
    push_number(out, words as u64)?;
    push_text(out, b" instructions of ")?;
    push_number(out, u64::from(width))?;
    push_text(out, b" bits\n")
}

/// Puts that a file has the words of the code: how many, and how many bits each.
#[tactic(auto, unfolding(crate::specs::Header::file_line))]
pub fn push_file(out: &mut Vec<u8>, size: u32, width: u32) -> Result<(), AllocError>
    ensures { OnOk result (out.new.items ≡ out.old.items ++ file_line size width) }
{
    push_text(out, b"// code: ")?;
    push_number(out, u64::from(size))?;
    push_text(out, b" words of ")?;
    push_number(out, u64::from(width))?;
    push_text(out, b" bits in code.hex\n")
}

/// Puts a text where a test holds.
fn push_if(out: &mut Vec<u8>, test: bool, text: &[u8]) -> Result<(), AllocError>
    ensures { OnOk result
        (out.new.items ≡ out.old.items ++ (if test then text.now else [])) }
{
    if test { push_text(out, text) } else { Ok(()) }
}

/// Puts the ports that the module has.
#[tactic(auto, unfolding(crate::specs::Header::ports_line))]
pub fn push_ports(
    out: &mut Vec<u8>,
    faults: bool,
    gives: bool,
    takes: bool,
) -> Result<(), AllocError>
    ensures { OnOk result (out.new.items ≡ out.old.items ++ ports_line faults gives takes) }
{
    push_text(out, b"// ports: clk, reset, halted, cycle, pc")?;
    push_if(out, faults, b", fault")?;
    push_if(out, gives, b", out_valid, out_data, out_ready")?;
    push_if(out, takes, b", in_valid, in_data, in_ready")?;
    push_text(out, b"\n")
}
