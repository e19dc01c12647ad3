//! The data of an image.

ghost use Rattle.std.specs.Prelude.{◌≡◌, ◌+◌, ◌*◌, ◌≤◌, ◌||◌, nat_lt, nat_le, length, drop, IsTrue};
ghost use Rattle.tta_image.specs.Reading.{has_data, data_told, datum_in};
ghost use Rattle.tta_image.specs.Reading.{decoded_pairs, decoded_data};
ghost use Rattle.tta_image.specs.Refusals.{Answers};

use crate::header::{data_told, has_data};
use crate::refusal::{ImageError, ImageRefusal};
use std::alloc::Global;
use tta_arch::Machine;
use tta_code::Datum;
use tta_list::Items;

/// The datum that bytes begin with.
fn datum_in(bytes: &[u8]) -> Datum
    requires { 8 ≤ length bytes.now }
    ensures { result ≡ datum_in bytes.now }
{
    Datum {
        address: u32::from_be_bytes([bytes[0], bytes[1], bytes[2], bytes[3]]),
        value: u32::from_be_bytes([bytes[4], bytes[5], bytes[6], bytes[7]]),
    }
}

/// Whether an address is below the least one that may come, or not one of the data space.
fn is_out(address: u32, least: u64, words: u32) -> bool
    ensures { result ≡ (nat_lt address least || nat_le words address) }
{
    u64::from(address) < least || address >= words
}

/// So many data, whose addresses ascend in a data space of so many words.
fn read_pairs(
    alloc: Global,
    bytes: &[u8],
    count: u32,
    words: u32,
) -> Result<Items<Datum>, ImageError>
    requires { 8 * count ≤ length bytes.now }
    ensures { Answers result (decoded_pairs words count 0 0 bytes.now) }
{
    let mut init = Items::new(alloc);
    let mut rest = bytes;
    let mut least: u64 = 0;
    for place in 0..count {
        let datum = datum_in(rest);
        if is_out(datum.address, least, words) {
            return Err(ImageRefusal::Data.of_word(place, 0));
        }
        rest = &rest[8..];
        least = u64::from(datum.address) + 1;
        init.push(datum)?;
    }
    Ok(init)
}

/// The bytes after the number of data.
fn pairs_in(bytes: &[u8]) -> &[u8]
    requires { 52 ≤ length bytes.now }
    ensures { result.now ≡ drop 52 bytes.now }
{
    &bytes[52..]
}

/// The data of an image whose header was taken.
pub fn read_data(alloc: Global, m: &Machine, bytes: &[u8]) -> Result<Items<Datum>, ImageError>
    requires { IsTrue (has_data bytes.now) → 52 + 8 * data_told bytes.now ≤ length bytes.now }
    ensures { Answers result (decoded_data m.now bytes.now) }
{
    if !has_data(bytes) {
        return Ok(Items::new(alloc));
    }
    let count = data_told(bytes);
    if count == 0 {
        return Err(ImageRefusal::Data.of_all());
    }
    read_pairs(alloc, pairs_in(bytes), count, m.data_words)
}
