//! The fields of a slot, read bus by bus.

ghost use Rattle.std.specs.Prelude.{◌≡◌, ◌+◌, ◌*◌, ◌/◌, ◌%◌, ◌<◌, ◌≤◌, ◌^◌, Bool, List, length};
ghost use Rattle.std.specs.Prelude.{drop};
ghost use Rattle.tta_image.specs.Decoding.{bits_in, field, slot_numbers, decoded_guard, short_word};
ghost use Rattle.tta_image.specs.Decoding.{decoded_source, decoded_dest, decoded_move};
ghost use Rattle.tta_image.specs.Decoding.{decoded_slot};
ghost use Rattle.tta_image.specs.Narrow.{IsNarrow};

use crate::bits::number_at;
use tta_arch::{BusFields, Dest, GuardRef, Source};
use tta_code::Move;
use tta_list::power_of_two;

/// The numbers in the fields of a slot.
#[derive(Clone, Copy, Debug, PartialEq, Eq)]
pub struct SlotNumbers {
    pub guard: u64,
    /// Whether the payload is a short word, and no source's code.
    pub is_short: bool,
    pub payload: u64,
    pub dest: u64,
}

/// A number without its `count` low bits, and these.
fn split_low(number: u64, count: u32) -> (u64, u64)
    requires { count < 64 }
    ensures high { result.0 ≡ number / 2 ^ count }
    ensures low { result.1 ≡ number % 2 ^ count }
{
    (number >> count, number % (1 << count))
}

/// The numbers in the fields of a slot whose bits are all in one number.
fn numbers_in(fields: &BusFields, whole: u64) -> SlotNumbers
    requires narrow { IsNarrow fields.now }
    ensures { (bits : List Bool) → fields.now.width ≤ length bits
        → whole ≡ field 0 fields.now.width bits → result ≡ slot_numbers fields.now bits }
{
    let (above, dest) = split_low(whole, fields.dest_width);
    let (high, payload) = split_low(above, fields.payload_width);
    let (guard, tag) = split_low(high, 1);
    SlotNumbers {
        guard,
        is_short: tag == 1,
        payload,
        dest,
    }
}

/// The numbers in the fields of the slot that begins after so many bits.
fn numbers_at(fields: &BusFields, bytes: &[u8], at: usize) -> SlotNumbers
    requires narrow { IsNarrow fields.now }
    requires few { 8 * length bytes.now < 2 ^ 64 }
    requires room { at + fields.now.width ≤ 8 * length bytes.now }
    ensures { result ≡ slot_numbers fields.now (drop at (bits_in bytes.now)) }
{
    numbers_in(fields, number_at(bytes, at, fields.width))
}

/// The guard of a code: 0 is no guard.
fn guard_of(fields: &BusFields, code: u64) -> Option<Option<GuardRef>>
    ensures { result ≡ decoded_guard fields.now code }
{
    if code == 0 {
        return Some(None);
    }
    match fields.guards.as_slice().get(code as usize - 1) {
        Some(guard) => Some(Some(guard.on)),
        None => None,
    }
}

/// The word of a short field of so many bits.
fn short_word(signed: bool, width: u32, number: u64) -> u32
    requires some { 0 < width }
    requires most { width ≤ 32 }
    requires fits { number < 2 ^ width }
    ensures { result ≡ short_word signed width number }
{
    if signed && number >= power_of_two(width - 1) {
        (number + (power_of_two(32) - power_of_two(width))) as u32
    } else {
        number as u32
    }
}

/// The source of a code, or the short word.
fn source_of(fields: &BusFields, signed: bool, is_short: bool, payload: u64) -> Option<Source>
    requires { IsNarrow fields.now }
    ensures { result ≡ decoded_source fields.now signed is_short payload }
{
    if !is_short {
        return fields.sources.as_slice().get(payload as usize).copied();
    }
    if payload >= power_of_two(fields.short_width) {
        return None;
    }
    Some(Source::Value(short_word(signed, fields.short_width, payload)))
}

/// The destination of a code.
fn dest_of(fields: &BusFields, code: u64) -> Option<Dest>
    requires { 0 < code }
    ensures { result ≡ decoded_dest fields.now code }
{
    fields.dests.as_slice().get(code as usize - 1).copied()
}

/// The move of a slot that is not empty.
fn move_of(fields: &BusFields, signed: bool, n: SlotNumbers) -> Option<Move>
    requires narrow { IsNarrow fields.now }
    requires some { 0 < n.dest }
    ensures { result ≡ decoded_move fields.now signed n }
{
    let guard = guard_of(fields, n.guard)?;
    let src = source_of(fields, signed, n.is_short, n.payload)?;
    let dst = dest_of(fields, n.dest)?;
    Some(Move { guard, src, dst })
}

/// The slot of these numbers, where each field has a meaning.
fn slot_of(fields: &BusFields, signed: bool, n: SlotNumbers) -> Option<Option<Move>>
    requires { IsNarrow fields.now }
    ensures { result ≡ decoded_slot fields.now signed n }
{
    if n.dest > 0 {
        return match move_of(fields, signed, n) {
            Some(v) => Some(Some(v)),
            None => None,
        };
    }
    if n.guard == 0 && (!n.is_short && n.payload == 0) {
        Some(None)
    } else {
        None
    }
}

/// The slot of a bus that begins after so many bits, where each of its fields has a meaning.
pub fn slot_at(fields: &BusFields, signed: bool, bytes: &[u8], at: usize) -> Option<Option<Move>>
    requires narrow { IsNarrow fields.now }
    requires few { 8 * length bytes.now < 2 ^ 64 }
    requires room { at + fields.now.width ≤ 8 * length bytes.now }
    ensures { result ≡ decoded_slot fields.now signed
        (slot_numbers fields.now (drop at (bits_in bytes.now))) }
{
    slot_of(fields, signed, numbers_at(fields, bytes, at))
}
