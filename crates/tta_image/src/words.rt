//! The instructions of an image, read word by word.

ghost use Rattle.std.specs.Prelude.{◌≡◌, ◌+◌, ◌*◌, ◌<◌, ◌≤◌, ◌^◌, if◌then◌else◌, Some, length};
ghost use Rattle.std.specs.Prelude.{drop};
ghost use Rattle.std.specs.List.{sum_by};
ghost use Rattle.tta_arch.specs.Layout.{layout_of};
ghost use Rattle.tta_image.specs.Decoding.{number_of, bits_in, is_signed, decoded_template};
ghost use Rattle.tta_image.specs.Decoding.{taken_by, least_bus, taken_bits, decoded_long};
ghost use Rattle.tta_image.specs.Decoding.{decoded_bus, decoded_slots, decoded_instruction};
ghost use Rattle.tta_image.specs.Decoding.{word_only, field};
ghost use Rattle.tta_image.specs.Narrow.{IsNarrow, AreNarrow};
ghost use Rattle.tta_image.specs.Refusals.{Answers};

use crate::bits::number_at;
use crate::refusal::{ImageError, ImageRefusal};
use crate::slots::slot_at;
use std::alloc::Global;
use tta_arch::{BusFields, Layout, Machine, has_bus};
use tta_code::{Instruction, Long, Move};
use tta_list::Items;

/// A word whose template is read: which word it is, and the buses that the template takes.
#[derive(Clone, Copy)]
struct Word {
    number: u32,
    taken: u16,
}

/// Whether the short field of a bus is signed.
fn is_signed(m: &Machine, bus: usize) -> bool
    ensures { result ≡ is_signed m.now bus }
{
    match m.buses.as_slice().get(bus) {
        Some(b) => b.signed,
        None => false,
    }
}

/// The template of a code: 0 is no template.
fn template_of(m: &Machine, code: u64) -> Option<Option<u8>>
    ensures { result ≡ decoded_template m.now code }
{
    if code == 0 {
        return Some(None);
    }
    if code - 1 < m.templates.len() as u64 {
        Some(Some((code - 1) as u8))
    } else {
        None
    }
}

/// The buses that a template takes.
fn taken_by(m: &Machine, template: Option<u8>) -> u16
    ensures { result ≡ taken_by m.now template }
{
    let Some(t) = template else {
        return 0;
    };
    match m.templates.as_slice().get(usize::from(t)) {
        None => 0,
        Some(t) => t.buses,
    }
}

/// The least bus of a set.
fn least_bus(m: &Machine, taken: u16) -> u8
    ensures { result ≡ least_bus m.now taken }
{
    let buses = m.buses.len();
    for bus in 0..buses {
        if has_bus(taken, bus) {
            return bus as u8;
        }
    }
    buses as u8
}

/// The number of some bits and of so many more after them, where it is a word.
fn joined_value(value: u32, width: u32, share: u64) -> Option<u32>
    requires { width ≤ 64 }
    ensures { result ≡ word_only (value * 2 ^ width + share) }
{
    let joined = (u128::from(value) << width) + u128::from(share);
    if joined < 1 << 32 {
        Some(joined as u32)
    } else {
        None
    }
}

/// The number of some bits, and of a bus's bits after them where the bus is taken, where it is a
/// word.
fn value_after(
    fields: &BusFields,
    is_taken: bool,
    value: u32,
    bytes: &[u8],
    at: usize,
) -> Option<u32>
    requires narrow { IsNarrow fields.now }
    requires few { 8 * length bytes.now < 2 ^ 64 }
    requires room { at + fields.now.width ≤ 8 * length bytes.now }
    ensures { let more = field at fields.now.width (bits_in bytes.now) in
        result ≡ (if is_taken
        then word_only (value * 2 ^ fields.now.width + more)
        else Some value) }
{
    if is_taken {
        joined_value(value, fields.width, number_at(bytes, at, fields.width))
    } else {
        Some(value)
    }
}

/// The number in the bits of the buses that are taken, where it is a word. The first bus begins
/// after so many bits.
fn long_value(layout: &Layout, bytes: &[u8], at: usize, taken: u16) -> Option<u32>
    requires narrow { AreNarrow layout.now.buses }
    requires few { 8 * length bytes.now < 2 ^ 64 }
    requires room { at + sum_by (λ f. f.width) layout.now.buses ≤ 8 * length bytes.now }
    ensures { result ≡ word_only (number_of
        (taken_bits taken 0 layout.now.buses (drop at (bits_in bytes.now)))) }
{
    let mut value: u32 = 0;
    let mut at = at;
    for (bus, fields) in layout.buses.as_slice().iter().enumerate() {
        value = value_after(fields, has_bus(taken, bus), value, bytes, at)?;
        at += fields.width as usize;
    }
    Some(value)
}

/// The long immediate of a template, whose buses begin after so many bits.
fn read_long(
    m: &Machine,
    layout: &Layout,
    bytes: &[u8],
    at: usize,
    word: u32,
    template: Option<u8>,
) -> Result<Option<Long>, ImageError>
    requires narrow { AreNarrow layout.now.buses }
    requires few { 8 * length bytes.now < 2 ^ 64 }
    requires room { at + sum_by (λ f. f.width) layout.now.buses ≤ 8 * length bytes.now }
    ensures { let bits = drop at (bits_in bytes.now) in
        result ≡ decoded_long m.now word layout.now.buses template bits }
{
    let Some(template) = template else {
        return Ok(None);
    };
    let taken = taken_by(m, Some(template));
    match long_value(layout, bytes, at, taken) {
        Some(value) => Ok(Some(Long { template, value })),
        None => Err(ImageRefusal::Field.of_word(word, least_bus(m, taken))),
    }
}

/// The slot of a bus that begins after so many bits, which is empty where the bus is taken.
fn read_bus(
    m: &Machine,
    fields: &BusFields,
    bytes: &[u8],
    at: usize,
    word: Word,
    bus: u8,
) -> Result<Option<Move>, ImageError>
    requires narrow { IsNarrow fields.now }
    requires few { 8 * length bytes.now < 2 ^ 64 }
    requires room { at + fields.now.width ≤ 8 * length bytes.now }
    ensures { result ≡ decoded_bus m.now word.number word.taken bus fields.now
        (drop at (bits_in bytes.now)) }
{
    if has_bus(word.taken, usize::from(bus)) {
        return Ok(None);
    }
    match slot_at(fields, is_signed(m, usize::from(bus)), bytes, at) {
        Some(slot) => Ok(slot),
        None => Err(ImageRefusal::Field.of_word(word.number, bus)),
    }
}

/// The slots of all buses, the first of which begins after so many bits.
fn read_slots(
    alloc: Global,
    m: &Machine,
    layout: &Layout,
    bytes: &[u8],
    at: usize,
    word: Word,
) -> Result<Items<Option<Move>>, ImageError>
    requires narrow { AreNarrow layout.now.buses }
    requires few { 8 * length bytes.now < 2 ^ 64 }
    requires room { at + sum_by (λ f. f.width) layout.now.buses ≤ 8 * length bytes.now }
    requires buses { length layout.now.buses ≤ 16 }
    ensures { Answers result (decoded_slots m.now word.number word.taken 0 layout.now.buses
        (drop at (bits_in bytes.now))) }
{
    let mut moves = Items::new(alloc);
    let mut at = at;
    for (bus, fields) in layout.buses.as_slice().iter().enumerate() {
        let slot = read_bus(m, fields, bytes, at, word, bus as u8)?;
        moves.push(slot)?;
        at += fields.width as usize;
    }
    Ok(moves)
}

/// The instruction of a word that begins after so many bits.
pub fn read_instruction(
    alloc: Global,
    m: &Machine,
    layout: &Layout,
    bytes: &[u8],
    at: usize,
    word: u32,
) -> Result<Instruction, ImageError>
    requires layout { layout.now ≡ layout_of m.now }
    requires few { 8 * length bytes.now < 2 ^ 64 }
    requires room { at + layout.now.width ≤ 8 * length bytes.now }
    ensures { Answers result
        (decoded_instruction m.now layout.now word (drop at (bits_in bytes.now))) }
{
    let buses = m.buses.len() as u8;
    let code = number_at(bytes, at, layout.template_width);
    let Some(template) = template_of(m, code) else {
        return Err(ImageRefusal::Field.of_word(word, buses));
    };
    let at = at + layout.template_width as usize;
    let long = match read_long(m, layout, bytes, at, word, template) {
        Ok(long) => long,
        Err(e) => return Err(e),
    };
    let taken = taken_by(m, template);
    let word = Word {
        number: word,
        taken,
    };
    match read_slots(alloc, m, layout, bytes, at, word) {
        Ok(moves) => Ok(Instruction { moves, long }),
        Err(e) => Err(e),
    }
}
