//! The memories: the code as a function of its address, and the two spaces.

ghost use Rattle.std.specs.Prelude.{◌≡◌, ◌+◌, ◌*◌, ◌<◌, ◌≤◌, ◌^◌, ◌++◌, codes, length, OnOk};
ghost use Rattle.std.specs.List.{flat_map, enumerate_from};
ghost use Rattle.tta_image.specs.Decoding.{bits_in, field};
ghost use Rattle.tta_arch.specs.Fields.{numbers};
ghost use Rattle.tta_hardware.specs.Hardware.{rom};
ghost use Rattle.tta_names.specs.Names.{names_of, text_of};
ghost use Rattle.tta_rtl.specs.Memories.{bit_in, digits, is_inside, space_text, starts_inside, stored, words_in};
ghost use Rattle.tta_offers.specs.Offers.{places_of};
ghost use Rattle.tta_verilog.specs.Circuits as v;

use crate::on::On;
use crate::starts::{UnitWord, push_some_start, push_word_of_start};
use std::alloc::AllocError;
use tta_arch::Machine;
use tta_offers::OpAt;
use tta_verilog::{push_bit, push_constant, push_number, push_range, push_text};

/// Whether a bit of some bytes is set, the highest of each byte first.
pub fn bit_at(bytes: &[u8], at: usize) -> bool
    ensures { result ≡ bit_in bytes.now at }
{
    match bytes.get(at / 8) {
        Some(byte) => (*byte >> (7 - at % 8)) % 2 == 1,
        None => false,
    }
}

/// Puts so many bits of some bytes, from one on.
#[tactic(auto, using(crate::proofs::Digits::digits_more))]
fn push_bits(out: &mut Vec<u8>, bytes: &[u8], at: usize, width: u32) -> Result<(), AllocError>
    requires { at + width < 2 ^ 64 }
    ensures { OnOk result (out.new.items ≡ out.old.items ++ digits bytes.now at width) }
{
    if width == 0 {
        return Ok(());
    }
    push_bit(out, bit_at(bytes, at))?;
    push_bits(out, bytes, at + 1, width - 1)
}

/// Puts a word of code, whose bits stand in some bytes from one on.
#[tactic(auto, using(crate::proofs::Digits::digits_of_field), unfolding(tta_verilog::specs::Circuits::case_line))]
fn push_code_word(
    out: &mut Vec<u8>,
    width: u32,
    k: usize,
    bytes: &[u8],
    at: usize,
) -> Result<(), AllocError>
    requires inside { at + width ≤ 8 * length bytes.now }
    requires few { 8 * length bytes.now < 2 ^ 64 }
    ensures { OnOk result (out.new.items ≡ out.old.items
        ++ v.case_line (codes "code") width k (field at width (bits_in bytes.now))) }
{
    push_number(out, k as u64)?;
    push_text(out, b": ")?;
    push_text(out, b"code")?;
    push_text(out, b" = ")?;
    push_number(out, u64::from(width))?;
    push_text(out, b"'b")?;
    push_bits(out, bytes, at, width)?;
    push_text(out, b";\n")
}

/// Puts the words of code, whose bits stand in some bytes.
fn push_code_words(
    out: &mut Vec<u8>,
    width: u32,
    words: usize,
    bytes: &[u8],
) -> Result<(), AllocError>
    requires inside { words * width ≤ 8 * length bytes.now }
    requires few { 8 * length bytes.now < 2 ^ 64 }
    ensures { OnOk result (out.new.items ≡ out.old.items ++ flat_map
        (λ k. v.case_line (codes "code") width k (field (k * width) width (bits_in bytes.now)))
        (numbers words)) }
{
    for k in 0..words {
        push_code_word(out, width, k, bytes, k * width as usize)?;
    }
    Ok(())
}

/// Puts the lines of the code before its words.
#[tactic(auto, unfolding(tta_verilog::specs::Circuits::case_start))]
fn start_code(out: &mut Vec<u8>, width: u32) -> Result<(), AllocError>
    ensures { OnOk result (out.new.items ≡ out.old.items ++ v.case_start (codes "code") width) }
{
    push_text(out, b"function ")?;
    push_range(out, width)?;
    push_text(out, b"code")?;
    push_text(out, b";\ninput ")?;
    push_range(out, 32)?;
    push_text(out, b"at;\ncase (at)\n")
}

/// Puts the lines of the code after its words.
#[tactic(auto, unfolding(tta_verilog::specs::Circuits::case_end))]
fn end_code(out: &mut Vec<u8>, width: u32) -> Result<(), AllocError>
    ensures { OnOk result (out.new.items ≡ out.old.items ++ v.case_end (codes "code") width) }
{
    push_text(out, b"default: ")?;
    push_text(out, b"code")?;
    push_text(out, b" = ")?;
    push_constant(out, width, 0)?;
    push_text(out, b";\nendcase\nendfunction\n")
}

/// Puts the code: the words of instructions, whose bits stand in some bytes.
pub fn push_code(
    out: &mut Vec<u8>,
    on: &On<'_>,
    words: usize,
    bytes: &[u8],
) -> Result<(), AllocError>
    requires inside { words * on.now.layout.now.width ≤ 8 * length bytes.now }
    requires few { 8 * length bytes.now < 2 ^ 64 }
    ensures { let M = on.now.m.now in
        OnOk result (out.new.items ≡ out.old.items
        ++ v.function_text (names_of M) (rom M (words_in M bytes.now words))) }
{
    let width = on.layout.width;
    start_code(out, width)?;
    push_code_words(out, width, words, bytes)?;
    end_code(out, width)
}

/// Puts a first word of a memory, if it is not 0.
#[tactic(auto, unfolding(tta_verilog::specs::Circuits::first_line))]
fn push_first(out: &mut Vec<u8>, name: &[u8], k: usize, word: u32) -> Result<(), AllocError>
    ensures { OnOk result (out.new.items ≡ out.old.items ++ v.first_line name.now 32 k word) }
{
    if word == 0 {
        return Ok(());
    }
    push_text(out, name)?;
    push_text(out, b"[")?;
    push_number(out, k as u64)?;
    push_text(out, b"] = ")?;
    push_constant(out, 32, u64::from(word))?;
    push_text(out, b";\n")
}

/// Puts the first words of a memory that are not 0.
fn push_words(out: &mut Vec<u8>, name: &[u8], words: &[u32]) -> Result<(), AllocError>
    ensures { OnOk result (out.new.items ≡ out.old.items
        ++ flat_map (λ k. v.first_line name.now 32 k.0 k.1) (enumerate_from 0 words.now)) }
{
    for (k, word) in words.iter().enumerate() {
        push_first(out, name, k, *word)?;
    }
    Ok(())
}

/// Puts that a simulator sets all words of a memory to 0; where the text is synthesized they begin so.
fn push_zeros(out: &mut Vec<u8>, name: &[u8], size: u32) -> Result<(), AllocError>
    ensures { OnOk result (out.new.items ≡ out.old.items ++ v.array_zeros name.now 32 size) }
{
    push_text(
        out,
        b"];\ninitial begin\n`ifndef SYNTHESIS\nfor (k = 0; k < ",
    )?;
    push_number(out, u64::from(size))?;
    push_text(out, b"; k = k + 1) ")?;
    push_text(out, name)?;
    push_text(out, b"[k] = ")?;
    push_constant(out, 32, 0)?;
    push_text(out, b";\n`endif\n")
}

/// Puts the lines of a memory of so many words before its first words.
#[tactic(auto, unfolding(tta_verilog::specs::Circuits::array_start))]
fn start_memory(out: &mut Vec<u8>, name: &[u8], size: u32) -> Result<(), AllocError>
    ensures { OnOk result (out.new.items ≡ out.old.items ++ v.array_start name.now 32 size) }
{
    push_text(out, b"reg ")?;
    push_range(out, 32)?;
    push_text(out, name)?;
    push_text(out, b" [0:")?;
    push_number(out, u64::from(size.saturating_sub(1)))?;
    push_zeros(out, name, size)
}

/// Puts a memory of so many words, which are its first words.
pub fn push_memory(
    out: &mut Vec<u8>,
    name: &[u8],
    size: u32,
    words: &[u32],
) -> Result<(), AllocError>
    requires { length words.now ≡ size }
    ensures { OnOk result (out.new.items ≡ out.old.items ++ space_text name.now words.now) }
{
    start_memory(out, name, size)?;
    push_words(out, name, words)?;
    push_text(out, b"end\n")
}

/// Puts a memory of so many words, which are 0 at first.
pub fn push_empty_memory(out: &mut Vec<u8>, name: &[u8], size: u32) -> Result<(), AllocError>
    ensures { OnOk result (out.new.items ≡ out.old.items
        ++ (v.array_start name.now 32 size ++ codes "end\n")) }
{
    start_memory(out, name, size)?;
    push_text(out, b"end\n")
}

/// Puts whether the address of these stores is below a size.
#[tactic(auto, unfolding(tta_verilog::specs::Expressions::between))]
fn push_inside(out: &mut Vec<u8>, m: &Machine, size: u32, stores: &[OpAt]) -> Result<(), AllocError>
    ensures { OnOk result (out.new.items ≡ out.old.items
        ++ text_of m.now (is_inside size (places_of stores.now))) }
{
    push_text(out, b"(")?;
    push_word_of_start(out, m, UnitWord::Operand, stores)?;
    push_text(out, b")<(")?;
    push_constant(out, 32, u64::from(size))?;
    push_text(out, b")")
}

/// Puts whether one of these stores starts, at an address below a size.
#[tactic(auto, unfolding(tta_verilog::specs::Expressions::between))]
fn push_starts_inside(
    out: &mut Vec<u8>,
    m: &Machine,
    size: u32,
    stores: &[OpAt],
) -> Result<(), AllocError>
    ensures { OnOk result (out.new.items ≡ out.old.items
        ++ text_of m.now (starts_inside size (places_of stores.now))) }
{
    push_text(out, b"(")?;
    push_some_start(out, m, stores)?;
    push_text(out, b")&&(")?;
    push_inside(out, m, size, stores)?;
    push_text(out, b")")
}

/// Puts when a memory of so many words is written by these stores.
#[tactic(auto, unfolding(tta_verilog::specs::Expressions::between))]
fn push_enable(out: &mut Vec<u8>, m: &Machine, size: u32, stores: &[OpAt]) -> Result<(), AllocError>
    ensures { OnOk result (out.new.items ≡ out.old.items
        ++ text_of m.now (stored size (places_of stores.now)).enable) }
{
    push_text(out, b"(n_goes)&&(")?;
    push_starts_inside(out, m, size, stores)?;
    push_text(out, b")")
}

/// Puts where a memory of so many words is written by these stores.
#[tactic(auto, unfolding(tta_verilog::specs::Circuits::write_line))]
pub fn push_store(
    out: &mut Vec<u8>,
    m: &Machine,
    name: &[u8],
    size: u32,
    stores: &[OpAt],
) -> Result<(), AllocError>
    ensures { let P = stored size (places_of stores.now) in
        let T = text_of m.now in
        OnOk result (out.new.items ≡ out.old.items
        ++ v.write_line name.now (T P.enable) (T P.address) (T P.word)) }
{
    push_text(out, b"always @(posedge clk) if (")?;
    push_enable(out, m, size, stores)?;
    push_text(out, b") ")?;
    push_text(out, name)?;
    push_text(out, b"[")?;
    push_word_of_start(out, m, UnitWord::Operand, stores)?;
    push_text(out, b"] <= ")?;
    push_word_of_start(out, m, UnitWord::Trigger, stores)?;
    push_text(out, b";\n")
}
