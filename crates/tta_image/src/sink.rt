//! A sink of bits, which packs them into bytes.

ghost use Rattle.std.specs.Prelude.{◌≡◌, ◌+◌, ◌-◌, ◌*◌, ◌<◌, ◌≤◌, ◌/◌, ◌%◌, ◌^◌, ◌==◌, [], ◌∷◌};
ghost use Rattle.std.specs.Prelude.{◌++◌, false, replicate, IfOk, OnOk};
ghost use Rattle.tta_image.specs.Bits.{bits_of};
ghost use Rattle.tta_image.specs.Image.{AreBytesOf};
ghost use Rattle.tta_image.specs.Sink.{bit_value};

use std::alloc::{AllocError, Global};
use std::marker::Model;

/// The bits that were put in so far, which a contract sees as their list.
#[derive(Drop)]
pub struct BitSink {
    /// The bytes that are full.
    bytes: Vec<u8>,
    /// The bits after the last full byte, as a number.
    last: u8,
    /// How many bits `last` has, 0 to 7.
    filled: u8,
}

impl Model for BitSink {
    ghost use Rattle.std.specs.Prelude.{List, Bool, ◌++◌, ◌<◌, ◌^◌};
    ghost use Rattle.std.specs.List.{flat_map, AllByRecursion};
    ghost use Rattle.tta_image.specs.Bits.{bits_of};

    ghost Value = { List Bool };

    ghost view = { λ s. flat_map (bits_of 8) s.bytes.items ++ bits_of s.filled s.last };

    ghost invariant = { λ s.
        (s.filled < 8) × (s.last < 2 ^ s.filled)
        × AllByRecursion (λ b. b < 256) s.bytes.items };
}

/// A number without its `count` low bits.
pub fn without_low(number: u64, count: u32) -> u64
    ensures { result ≡ number / 2 ^ count }
{
    if count < u64::BITS {
        number >> count
    } else {
        0
    }
}

/// A byte's bits with one more bit after them.
fn with_bit(bits: u8, bit: bool) -> u8
    requires { bits < 128 }
    ensures { result ≡ 2 * bits + bit_value bit }
{
    if bit { 2 * bits + 1 } else { 2 * bits }
}

/// A byte's bits with the low bits of a number after them, so many of them.
fn with_bits(bits: u8, number: u64, count: u32) -> u8
    requires few { count ≤ 8 }
    requires room { bits * 2 ^ count + number % 2 ^ count < 256 }
    ensures { result ≡ bits * 2 ^ count + number % 2 ^ count }
{
    ((u64::from(bits) << count) + number % (1 << count)) as u8
}

/// The byte that begins with `filled` bits, filled up with zeros.
fn filled_up(bits: u8, filled: u8) -> u8
    requires some { 0 < filled }
    requires below { filled < 8 }
    requires small { bits < 2 ^ filled }
    ensures { result ≡ bits * 2 ^ (8 - filled) }
{
    bits << (8 - filled)
}

impl BitSink {
    /// No bits. It takes no memory.
    pub fn new(alloc: Global) -> Self
        ensures { result ≡ [] }
    {
        BitSink {
            bytes: Vec::new(alloc),
            last: 0,
            filled: 0,
        }
    }

    /// Puts a bit at the end.
    pub fn push(&mut self, bit: bool) -> Result<(), AllocError>
        ensures ok { OnOk result (self.new ≡ self.old ++ bit ∷ []) }
    {
        let last = with_bit(self.last, bit);
        if self.filled == 7 {
            self.bytes.push(last)?;
            self.last = 0;
            self.filled = 0;
        } else {
            self.last = last;
            self.filled += 1;
        }
        Ok(())
    }

    /// Puts the highest of the `left` low bits of a number at the end, as many as the last byte has
    /// room for. Answers how many are left after them.
    fn push_front(&mut self, number: u64, left: u32) -> Result<u32, AllocError>
        requires { 0 < left }
        ensures less { IfOk result (λ n. n < left) }
        ensures ok { IfOk result
            (λ n. self.new ++ bits_of n number ≡ self.old ++ bits_of left number) }
    {
        let room = u32::from(8 - self.filled);
        let count = room.min(left);
        let last = with_bits(self.last, without_low(number, left - count), count);
        if count == room {
            self.bytes.push(last)?;
            self.last = 0;
            self.filled = 0;
        } else {
            self.last = last;
            self.filled += count as u8;
        }
        Ok(left - count)
    }

    /// Puts a number in so many bits at the end, the highest first. Bits of the number above these
    /// are left out.
    pub fn push_number(&mut self, number: u64, width: u32) -> Result<(), AllocError>
        ensures ok { OnOk result (self.new ≡ self.old ++ bits_of width number) }
    {
        let mut left = width;
        while left > 0 {
            left = self.push_front(number, left)?;
        }
        Ok(())
    }

    /// Puts so many zero bits at the end.
    pub fn push_zeros(&mut self, count: u32) -> Result<(), AllocError>
        ensures ok { OnOk result (self.new ≡ self.old ++ replicate count false) }
    {
        self.push_number(0, count)
    }

    /// The bytes of the bits, the last of them filled up with zero bits.
    pub fn into_bytes(self) -> Result<Vec<u8>, AllocError>
        ensures { IfOk result (λ v. AreBytesOf self v.items) }
    {
        let BitSink {
            mut bytes,
            last,
            filled,
        } = self;
        if filled > 0 {
            bytes.push(filled_up(last, filled))?;
        }
        Ok(bytes)
    }
}
