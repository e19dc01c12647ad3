//! What is told of an image.

ghost use Rattle.std.specs.Prelude.{◌≡◌, ◌≤◌, ◌<◌, ◌++◌, true, IfOk, OnOk};
ghost use Rattle.std.specs.List.{flat_map};
ghost use Rattle.tta_arch.specs.Fields.{word_width};
ghost use Rattle.tta_code.specs.Legal.{IsLegalCode};
ghost use Rattle.tta_code.specs.Whole.{fits};
ghost use Rattle.tta_info.specs.ImageInfo.{data_bytes, image_bytes, digit, hex_byte, sizes_text};
ghost use Rattle.tta_info.specs.ImageInfo.{digest_text, info_of_image};

use crate::lines::{end_line, push_count};
use std::alloc::{AllocError, Global};
use tta_arch::{Layout, Machine};
use tta_code::Whole;

/// How many bytes data have in an image.
fn data_bytes(count: u32) -> u64
    ensures { result ≡ data_bytes count }
{
    if 0 < count {
        4 + 8 * u64::from(count)
    } else {
        0
    }
}

/// How many bytes an image has, by the bits of an instruction, its instructions and its data.
fn image_bytes(bits: u32, words: u32, count: u32) -> u64
    requires { words ≤ 65536 }
    ensures { result ≡ image_bytes bits words count }
{
    48 + data_bytes(count) + (u64::from(bits) * u64::from(words) + 7) / 8
}

/// A digit to the base 16.
fn digit(n: u8) -> u8
    requires { n < 16 }
    ensures { result ≡ digit n }
{
    if n < 10 { 48 + n } else { 87 + n }
}

/// Puts a byte as two digits.
fn push_byte(out: &mut Vec<u8>, byte: u8) -> Result<(), AllocError>
    ensures { OnOk result (out.new.items ≡ out.old.items ++ hex_byte byte) }
{
    out.extend_from_slice(&[digit(byte / 16), digit(byte % 16)])
}

/// Puts bytes as digits.
fn push_bytes(out: &mut Vec<u8>, bytes: &[u8]) -> Result<(), AllocError>
    ensures { OnOk result (out.new.items ≡ out.old.items ++ flat_map hex_byte bytes.now) }
{
    for byte in bytes {
        push_byte(out, *byte)?;
    }
    Ok(())
}

/// Puts the words, bytes and data of an image.
#[tactic(auto, unfolding(crate::specs::ImageInfo::sizes_text))]
fn push_sizes(out: &mut Vec<u8>, bits: u32, words: u32, count: u32) -> Result<(), AllocError>
    requires { words ≤ 65536 }
    ensures { OnOk result (out.new.items ≡ out.old.items ++ sizes_text bits words count) }
{
    push_count(out, b"words ", u64::from(words))?;
    push_count(out, b"\nbytes ", image_bytes(bits, words, count))?;
    push_count(out, b"\ndata ", u64::from(count))?;
    end_line(out)
}

/// How many bits an instruction has.
fn width_of(alloc: Global, m: &Machine) -> Result<u32, AllocError>
    ensures { IfOk result (λ w. w ≡ word_width m.now) }
{
    let layout = Layout::of(alloc, m)?;
    Ok(layout.width())
}

/// Puts a digest.
#[tactic(auto, unfolding(crate::specs::ImageInfo::digest_text))]
fn push_digest(out: &mut Vec<u8>, digest: &[u8]) -> Result<(), AllocError>
    ensures { OnOk result (out.new.items ≡ out.old.items ++ digest_text digest.now) }
{
    out.extend_from_slice(b"digest ")?;
    push_bytes(out, digest)?;
    end_line(out)
}

/// What is told of an image with this code and data, as text: how many instructions, bytes and data it
/// has, and the digest of its machine's text. It fails only where there is no memory.
#[tactic(auto, unfolding(crate::specs::ImageInfo::info_of_image), using(crate::proofs::Few::few_data))]
pub fn tell_image(
    alloc: Global,
    m: &Machine,
    digest: &[u8; 32],
    whole: &Whole,
) -> Result<Vec<u8>, AllocError>
    requires legal { IsLegalCode m.now whole.now.code }
    requires data { fits m.now.data_words whole.now.init ≡ true }
    ensures { IfOk result (λ v. v.items ≡ info_of_image m.now digest.now whole.now) }
{
    // An address has at most 16 bits by the rules of a machine.
    m.rules();
    let bits = width_of(alloc, m)?;
    let mut out = Vec::new(alloc);
    push_sizes(
        &mut out,
        bits,
        whole.code.words.len() as u32,
        whole.init.len() as u32,
    )?;
    push_digest(&mut out, digest)?;
    Ok(out)
}
