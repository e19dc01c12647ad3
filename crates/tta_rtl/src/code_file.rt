//! The file of the words of code, as numbers to the base 16.

ghost use Rattle.std.specs.Prelude.{◌≡◌, ◌+◌, ◌-◌, ◌*◌, ◌/◌, ◌<◌, ◌≤◌, ◌^◌, ◌++◌, true, length, replicate, IfOk, OnOk};
ghost use Rattle.std.specs.List.{flat_map};
ghost use Rattle.tta_image.specs.Decoding.{bits_in, field};
ghost use Rattle.tta_image.specs.Sink.{bit_value};
ghost use Rattle.tta_arch.specs.Fields.{numbers};
ghost use Rattle.tta_code.specs.Legal.{IsLegalCode};
ghost use Rattle.tta_code.specs.Whole.{fits};
ghost use Rattle.tta_rtl.specs.CodeFile.{code_file, hex_digit, hex_line, hex_text};
ghost use Rattle.tta_rtl.specs.Memories.{bit_in};

use crate::bytes::code_bytes;
use crate::on::On;
use crate::spaces::bit_at;
use std::alloc::{AllocError, Global};
use tta_arch::{Layout, Machine};
use tta_code::Whole;
use tta_verilog::push_text;

/// A bit of some bytes as a number.
fn number_of_bit(bytes: &[u8], at: usize) -> u8
    ensures value { result ≡ bit_value (bit_in bytes.now at) }
    ensures small { result ≤ 1 }
{
    if bit_at(bytes, at) { 1 } else { 0 }
}

/// The number that one to four bits of some bytes make, from one on.
fn number_at(bytes: &[u8], at: usize, width: u32) -> u8
    requires inside { at + width ≤ 8 * length bytes.now }
    requires few { 8 * length bytes.now < 2 ^ 64 }
    requires some { 0 < width }
    requires short { width ≤ 4 }
    ensures value { result ≡ field at width (bits_in bytes.now) }
    ensures small { result < 16 }
{
    let first = number_of_bit(bytes, at);
    if width == 1 {
        return first;
    }
    let second = number_of_bit(bytes, at + 1);
    if width == 2 {
        return 2 * first + second;
    }
    let third = number_of_bit(bytes, at + 2);
    if width == 3 {
        return 4 * first + 2 * second + third;
    }
    let fourth = number_of_bit(bytes, at + 3);
    8 * first + 4 * second + 2 * third + fourth
}

/// A digit to the base 16.
fn hex_digit(n: u8) -> u8
    requires { n < 16 }
    ensures { result ≡ hex_digit n }
{
    if n < 10 { 48 + n } else { 87 + n }
}

/// How many bits the highest digit of a word to the base 16 has, where the word has some.
fn first_bits(width: u32) -> u32
    requires { 0 < width }
    ensures some { 0 < result }
    ensures few { result ≤ 4 }
    ensures within { result ≤ width }
    ensures rest { result + 4 * ((width - result) / 4) ≡ width }
{
    (width - 1) % 4 + 1
}

/// Puts the digits of a word of code, whose bits stand in some bytes from one on.
fn push_digits(out: &mut Vec<u8>, bytes: &[u8], at: usize, width: u32) -> Result<(), AllocError>
    requires inside { at + width ≤ 8 * length bytes.now }
    requires few { 8 * length bytes.now < 2 ^ 64 }
    ensures { OnOk result (out.new.items ≡ out.old.items
        ++ hex_text ((width + 3) / 4) (field at width (bits_in bytes.now))) }
{
    if width == 0 {
        return Ok(());
    }
    let first = first_bits(width);
    out.push(hex_digit(number_at(bytes, at, first)))?;
    push_digits(out, bytes, at + first as usize, width - first)
}

/// Puts a line with a word of code.
#[tactic(auto, unfolding(crate::specs::CodeFile::hex_line))]
fn push_line(out: &mut Vec<u8>, width: u32, bytes: &[u8], at: usize) -> Result<(), AllocError>
    requires inside { at + width ≤ 8 * length bytes.now }
    requires few { 8 * length bytes.now < 2 ^ 64 }
    ensures { OnOk result (out.new.items ≡ out.old.items
        ++ hex_line width (field at width (bits_in bytes.now))) }
{
    push_digits(out, bytes, at, width)?;
    push_text(out, b"\n")
}

/// Puts a line for each of so many words of code.
pub fn push_lines(
    out: &mut Vec<u8>,
    width: u32,
    words: usize,
    bytes: &[u8],
) -> Result<(), AllocError>
    requires inside { words * width ≤ 8 * length bytes.now }
    requires few { 8 * length bytes.now < 2 ^ 64 }
    ensures { OnOk result (out.new.items ≡ out.old.items ++ flat_map
        (λ k. hex_line width (field (k * width) width (bits_in bytes.now))) (numbers words)) }
{
    for k in 0..words {
        push_line(out, width, bytes, k * width as usize)?;
    }
    Ok(())
}

/// Puts so many digits of the word 0.
fn push_zeros(out: &mut Vec<u8>, digits: u32) -> Result<(), AllocError>
    ensures { OnOk result (out.new.items ≡ out.old.items ++ hex_text digits 0) }
{
    if digits == 0 {
        return Ok(());
    }
    push_text(out, b"0")?;
    push_zeros(out, digits - 1)
}

/// How many digits to the base 16 a word of so many bits has.
fn digits_of(width: u32) -> u32
    ensures { result ≡ (width + 3) / 4 }
{
    if width % 4 == 0 {
        width / 4
    } else {
        width / 4 + 1
    }
}

/// Puts a line with the word 0 of so many bits.
#[tactic(auto, unfolding(crate::specs::CodeFile::hex_line))]
fn push_zero_line(out: &mut Vec<u8>, width: u32) -> Result<(), AllocError>
    ensures { OnOk result (out.new.items ≡ out.old.items ++ hex_line width 0) }
{
    push_zeros(out, digits_of(width))?;
    push_text(out, b"\n")
}

/// Puts a line for each of so many words that are 0.
pub fn push_zero_lines(out: &mut Vec<u8>, width: u32, words: usize) -> Result<(), AllocError>
    ensures { OnOk result (out.new.items ≡ out.old.items
        ++ flat_map (hex_line width) (replicate words 0)) }
{
    for _ in 0..words {
        push_zero_line(out, width)?;
    }
    Ok(())
}

/// The file of the words of code: a line to the base 16 for each address of the code's memory.
pub fn write_code_file(
    alloc: Global,
    m: &Machine,
    digest: &[u8; 32],
    whole: &Whole,
) -> Result<Vec<u8>, AllocError>
    requires legal { IsLegalCode m.now whole.now.code }
    requires data { fits m.now.data_words whole.now.init ≡ true }
    ensures { IfOk result (λ v. v.items ≡ code_file m.now whole.now) }
{
    let size = m.addresses() as usize;
    let layout = Layout::of(alloc, m)?;
    let on = On { m, layout: &layout };
    let body = code_bytes(alloc, &on, digest, whole)?;
    let words = whole.code.words.len();
    let mut out = Vec::new(alloc);
    push_lines(&mut out, layout.width, words, body.as_slice())?;
    push_zero_lines(&mut out, layout.width, size - words)?;
    Ok(out)
}
