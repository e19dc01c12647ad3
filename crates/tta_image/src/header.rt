//! The header of an image.

ghost use Rattle.std.specs.Prelude.{◌≡◌, ◌+◌, ◌*◌, ◌<◌, ◌≤◌, ◌^◌, length, IsTrue};
ghost use Rattle.tta_arch.specs.Fields.{word_width};
ghost use Rattle.tta_image.specs.Reading.{stands_at, has_data, is_version, data_told, bytes_for};
ghost use Rattle.tta_image.specs.Reading.{word_count, section_length, has_length};
ghost use Rattle.tta_image.specs.Reading.{decoded_header};

use crate::refusal::{ImageError, ImageRefusal};
use tta_arch::Machine;

/// Whether the bytes hold a piece after so many bytes. Bytes that are missing are wrong ones.
fn stands_at(bytes: &[u8], at: usize, piece: &[u8]) -> bool
    ensures value { result ≡ stands_at at piece.now bytes.now }
    ensures inside { IsTrue result → 0 < length piece.now
        → at + length piece.now ≤ length bytes.now }
{
    match bytes.get(at..) {
        Some(rest) => rest.starts_with(piece),
        None => piece.is_empty(),
    }
}

/// How many words the header says.
fn word_count(bytes: &[u8]) -> u32
    requires { 16 ≤ length bytes.now }
    ensures { result ≡ word_count bytes.now }
{
    u32::from_be_bytes([bytes[12], bytes[13], bytes[14], bytes[15]])
}

/// Whether the version is that of images with data.
pub fn has_data(bytes: &[u8]) -> bool
    ensures { result ≡ has_data bytes.now }
{
    stands_at(bytes, 4, &2u32.to_be_bytes())
}

/// Whether the version is one of the two.
fn is_version(bytes: &[u8]) -> bool
    ensures { result ≡ is_version bytes.now }
{
    stands_at(bytes, 4, &1u32.to_be_bytes()) || has_data(bytes)
}

/// How many data the bytes after the header say.
pub fn data_told(bytes: &[u8]) -> u32
    requires { 52 ≤ length bytes.now }
    ensures { result ≡ data_told bytes.now }
{
    u32::from_be_bytes([bytes[48], bytes[49], bytes[50], bytes[51]])
}

/// How many bytes the data take.
pub fn section_length(bytes: &[u8]) -> u64
    requires { IsTrue (has_data bytes.now) → 52 ≤ length bytes.now }
    ensures value { result ≡ section_length bytes.now }
    ensures few { result < 2 ^ 36 }
{
    if has_data(bytes) {
        4 + 8 * u64::from(data_told(bytes))
    } else {
        0
    }
}

/// How many bytes so many words take.
fn bytes_for(words: u32, width: u32) -> u64
    requires { words ≤ 65536 }
    ensures { result ≡ bytes_for (words * width) }
{
    (u64::from(words) * u64::from(width) + 7) / 8
}

/// Whether the machine has an address for each word, and the bytes are just those of the header,
/// the data and the words.
fn has_length(m: &Machine, width: u32, bytes: &[u8], words: u32) -> bool
    requires { width ≡ word_width m.now }
    ensures { result ≡ has_length m.now bytes.now words }
{
    if words > m.addresses() || (has_data(bytes) && bytes.len() < 52) {
        return false;
    }
    bytes.len() as u64 == 48 + section_length(bytes) + bytes_for(words, width)
}

/// How many words the image has, whose instructions have so many bits; or the first refusal of its
/// header.
pub fn read_header(
    m: &Machine,
    width: u32,
    digest: &[u8; 32],
    bytes: &[u8],
) -> Result<u32, ImageError>
    requires { width ≡ word_width m.now }
    ensures { result ≡ decoded_header m.now digest.now bytes.now }
{
    if !stands_at(bytes, 0, b"TTAI") {
        return Err(ImageRefusal::Magic.of_all());
    }
    if !is_version(bytes) {
        return Err(ImageRefusal::Version.of_all());
    }
    if !stands_at(bytes, 16, digest) {
        return Err(ImageRefusal::WrongMachine.of_all());
    }
    if !stands_at(bytes, 8, &width.to_be_bytes()) {
        return Err(ImageRefusal::Width.of_all());
    }
    let words = word_count(bytes);
    if !has_length(m, width, bytes, words) {
        return Err(ImageRefusal::Length.of_all());
    }
    Ok(words)
}
