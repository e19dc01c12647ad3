//! The reader of images.

ghost use Rattle.std.specs.Prelude.{◌≡◌, ◌≢◌, ◌+◌, ◌*◌, ◌<◌, ◌≤◌, ◌^◌, length, drop, IfOk, IfErr};
ghost use Rattle.std.specs.Prelude.{IsTrue};
ghost use Rattle.std.specs.List.{list_any};
ghost use Rattle.tta_image.specs.Decoding.{bits_in};
ghost use Rattle.tta_image.specs.Image.{Image, IsNoImage};
ghost use Rattle.tta_image.specs.Reading.{decoded_word, decoded_words, decoded_image, body_in};
ghost use Rattle.tta_image.specs.Reading.{has_data, section_length};
ghost use Rattle.tta_image.specs.Refusals.{Answers};
ghost use Rattle.tta_image.specs.declared.refusal.ImageError.TheVariants.{NoMemory};

use crate::bits::number_at;
use crate::header::{read_header, section_length};
use crate::pairs::read_data;
use crate::refusal::{ImageError, ImageRefusal};
use crate::target::ImageTarget;
use crate::words::read_instruction;
use std::alloc::Global;
use tta_arch::{Layout, Machine};
use tta_code::{Code, Instruction, Whole, legal};
use tta_connect::Net;
use tta_list::Items;

/// The instruction of a word that begins after so many bits.
#[tactic(auto, using(crate::proofs::DecodedRules::is_decoded))]
fn read_word(
    alloc: Global,
    target: &ImageTarget,
    bytes: &[u8],
    at: usize,
    word: u32,
) -> Result<Instruction, ImageError>
    requires few { 8 * length bytes.now < 2 ^ 64 }
    requires room { at + target.now.layout.now.width ≤ 8 * length bytes.now }
    ensures { Answers result (decoded_word target.now.machine.now target.now.layout.now word
        (drop at (bits_in bytes.now))) }
{
    let i = read_instruction(alloc, target.machine, target.layout, bytes, at, word)?;
    if legal(target.machine, target.net, &i).is_err() {
        return Err(ImageRefusal::Illegal.of_word(word, 0));
    }
    Ok(i)
}

/// Whether a bit is set after so many others, of which fewer than a byte are left.
fn has_set_bit(bytes: &[u8], at: usize) -> bool
    requires few { 8 * length bytes.now < 2 ^ 64 }
    requires room { at ≤ 8 * length bytes.now }
    requires short { 8 * length bytes.now < at + 8 }
    ensures { result ≡ list_any (λ b. b) (drop at (bits_in bytes.now)) }
{
    number_at(bytes, at, (8 * bytes.len() - at) as u32) != 0
}

/// The instructions of so many words.
fn read_words(
    alloc: Global,
    target: &ImageTarget,
    bytes: &[u8],
    count: u32,
) -> Result<Items<Instruction>, ImageError>
    requires few { 8 * length bytes.now < 2 ^ 64 }
    requires room { count * target.now.layout.now.width ≤ 8 * length bytes.now }
    requires short { 8 * length bytes.now < count * target.now.layout.now.width + 8 }
    ensures { Answers result (decoded_words target.now.machine.now target.now.layout.now count 0
        (bits_in bytes.now)) }
{
    let mut words = Items::new(alloc);
    let mut at: usize = 0;
    for word in 0..count {
        let i = read_word(alloc, target, bytes, at, word)?;
        words.push(i)?;
        at += target.layout.width as usize;
    }
    if has_set_bit(bytes, at) {
        return Err(ImageRefusal::Padding.of_all());
    }
    Ok(words)
}

/// The bytes after the header and the data.
fn body_of(bytes: &[u8]) -> &[u8]
    requires number { IsTrue (has_data bytes.now) → 52 ≤ length bytes.now }
    requires data { 48 + section_length bytes.now ≤ length bytes.now }
    ensures { result.now ≡ body_in bytes.now }
{
    &bytes[48 + section_length(bytes) as usize..]
}

/// The code of an image with its data, read for this target.
fn read_whole(
    alloc: Global,
    bytes: &[u8],
    target: &ImageTarget,
    digest: &[u8; 32],
) -> Result<Whole, ImageError>
    ensures decoded { Answers result
        (decoded_image target.now.machine.now digest.now bytes.now) }
    ensures image { IfOk result
        (λ whole. Image target.now.machine.now digest.now whole bytes.now) }
    ensures refused { IfErr result
        (λ e. e ≢ NoMemory → IsNoImage target.now.machine.now digest.now bytes.now) }
{
    let m = target.machine;
    // An address has at most 16 bits by the rules of a machine, so the words are few.
    m.rules();
    let count = read_header(m, target.layout.width(), digest, bytes)?;
    let init = read_data(alloc, m, bytes)?;
    let words = read_words(alloc, target, body_of(bytes), count)?;
    Ok(Whole {
        code: Code { words },
        init,
    })
}

/// The code of an image, or why the bytes are none: the first refusal of the header, else of the
/// words one by one, else of the bits that fill up the last byte. The digest is that of the
/// machine's text.
pub fn read_image(
    alloc: Global,
    bytes: &[u8],
    m: &Machine,
    digest: &[u8; 32],
) -> Result<Whole, ImageError>
    ensures decoded { Answers result (decoded_image m.now digest.now bytes.now) }
    ensures image { IfOk result (λ whole. Image m.now digest.now whole bytes.now) }
    ensures refused { IfErr result
        (λ e. e ≢ NoMemory → IsNoImage m.now digest.now bytes.now) }
{
    let layout = Layout::of(alloc, m)?;
    let net = Net::of(alloc, m)?;
    let target = ImageTarget {
        machine: m,
        layout: &layout,
        net: &net,
    };
    read_whole(alloc, bytes, &target, digest)
}
