//! The writer of images.

ghost use Rattle.std.specs.Prelude.{◌≡◌, ◌<◌, ◌^◌, ◌++◌, [], length, codes, All};
ghost use Rattle.std.specs.Prelude.{IfOk, OnOk, true};
ghost use Rattle.std.specs.Int.{w32, to_be_bytes};
ghost use Rattle.std.specs.List.{flat_map};
ghost use Rattle.tta_arch.specs.Fields.{taken_width, word_width};
ghost use Rattle.tta_arch.specs.Layout.{layout_of};
ghost use Rattle.tta_code.specs.Legal.{IsLegalCode};
ghost use Rattle.tta_image.specs.Bits.{bits_of, template_code, slots_bits, instruction_bits};
ghost use Rattle.tta_image.specs.Image.{Image, AreBytesOf, version_of, datum_bytes, data_section};
ghost use Rattle.tta_code.specs.Whole.{fits};
ghost use Rattle.tta_image.specs.Ranks.{AreInOrder};
ghost use Rattle.tta_image.specs.Fields.{buses_of, value_of};

use crate::fields::{BusCodes, push_bus};
use crate::sink::BitSink;
use crate::starts::Starts;
use std::alloc::{AllocError, Global};
use tta_arch::{Layout, Machine, has_bus};
use tta_code::{Datum, Instruction, Long, Move, Whole, count_words};
use tta_list::Items;

/// The layout of a machine's instructions, and where to look first in the lists of each bus.
#[derive(Clone, Copy)]
struct Codes<'a> {
    layout: &'a Layout,
    starts: &'a Items<Starts>,
}

/// The code of a template, 0 for none.
fn template_code(long: Option<Long>) -> u64
    ensures { result ≡ template_code long }
{
    match long {
        None => 0,
        Some(l) => 1 + u64::from(l.template),
    }
}

/// The buses that a long immediate's template takes.
fn buses_of(m: &Machine, long: Option<Long>) -> u16
    ensures { result ≡ buses_of m.now long }
{
    let Some(l) = long else {
        return 0;
    };
    match m.templates.as_slice().get(usize::from(l.template)) {
        None => 0,
        Some(t) => t.buses,
    }
}

/// The word of a long immediate, 0 for none.
fn value_of(long: Option<Long>) -> u32
    ensures { result ≡ value_of long }
{
    match long {
        None => 0,
        Some(l) => l.value,
    }
}

/// Puts what each bus has in an instruction at the end: its slot, or its share of the long
/// immediate.
fn push_slots(
    codes: &Codes<'_>,
    m: &Machine,
    sink: &mut BitSink,
    taken: u16,
    value: u32,
    moves: &[Option<Move>],
) -> Result<(), AllocError>
    requires layout { codes.now.layout.now ≡ layout_of m.now }
    requires order { AreInOrder codes.now.layout.now.buses }
    requires starts { length codes.now.starts.now ≡ length codes.now.layout.now.buses }
    requires fits { word_width m.now < 2 ^ 32 }
    requires slots { length moves.now ≡ length m.now.buses }
    ensures ok { OnOk result
        (sink.new ≡ sink.old
        ++ slots_bits m.now taken (bits_of (taken_width m.now taken) value) 0 moves.now) }
{
    let mut left = codes.layout.width_of_set(taken);
    for (bus, slot) in moves.iter().enumerate() {
        let fields = &codes.layout.buses.as_slice()[bus];
        let starts = &codes.starts.as_slice()[bus];
        let of_bus = BusCodes { fields, starts };
        left = push_bus(&of_bus, sink, has_bus(taken, bus), left, value, *slot)?;
    }
    Ok(())
}

/// Puts the bits of an instruction at the end.
fn push_instruction(
    codes: &Codes<'_>,
    m: &Machine,
    sink: &mut BitSink,
    i: &Instruction,
) -> Result<(), AllocError>
    requires layout { codes.now.layout.now ≡ layout_of m.now }
    requires order { AreInOrder codes.now.layout.now.buses }
    requires starts { length codes.now.starts.now ≡ length codes.now.layout.now.buses }
    requires fits { word_width m.now < 2 ^ 32 }
    requires slots { length i.now.moves ≡ length m.now.buses }
    ensures ok { OnOk result (sink.new ≡ sink.old ++ instruction_bits m.now i.now) }
{
    let taken = buses_of(m, i.long);
    sink.push_number(template_code(i.long), codes.layout.template_width)?;
    push_slots(codes, m, sink, taken, value_of(i.long), i.moves.as_slice())?;
    Ok(())
}

/// Puts the bits of instructions at the end.
fn push_words(
    codes: &Codes<'_>,
    m: &Machine,
    sink: &mut BitSink,
    words: &[Instruction],
) -> Result<(), AllocError>
    requires layout { codes.now.layout.now ≡ layout_of m.now }
    requires order { AreInOrder codes.now.layout.now.buses }
    requires starts { length codes.now.starts.now ≡ length codes.now.layout.now.buses }
    requires fits { word_width m.now < 2 ^ 32 }
    requires slots { All (λ i. length i.moves ≡ length m.now.buses) words.now }
    ensures ok { OnOk result (sink.new ≡ sink.old ++ flat_map (instruction_bits m.now) words.now) }
{
    for i in words {
        push_instruction(codes, m, sink, i)?;
    }
    Ok(())
}

/// Puts a datum at the end: its address and its value.
fn push_datum(bytes: &mut Vec<u8>, datum: &Datum) -> Result<(), AllocError>
    ensures { OnOk result (bytes.new.items ≡ bytes.old.items ++ datum_bytes datum.now) }
{
    bytes.extend_from_slice(&datum.address.to_be_bytes())?;
    bytes.extend_from_slice(&datum.value.to_be_bytes())
}

/// Puts data at the end.
fn push_pairs(bytes: &mut Vec<u8>, init: &[Datum]) -> Result<(), AllocError>
    ensures { OnOk result (bytes.new.items ≡ bytes.old.items ++ flat_map datum_bytes init.now) }
{
    for datum in init {
        push_datum(bytes, datum)?;
    }
    Ok(())
}

/// Puts the data section at the end, which is empty where there are no data.
fn push_section(bytes: &mut Vec<u8>, init: &[Datum]) -> Result<(), AllocError>
    requires { length init.now < 2 ^ 32 }
    ensures { OnOk result (bytes.new.items ≡ bytes.old.items ++ data_section init.now) }
{
    if init.is_empty() {
        return Ok(());
    }
    bytes.extend_from_slice(&(init.len() as u32).to_be_bytes())?;
    push_pairs(bytes, init)
}

/// The version of an image with these data.
fn version_of(init: &[Datum]) -> u32
    ensures { result ≡ version_of init.now }
{
    if init.is_empty() { 1 } else { 2 }
}

/// Puts the parts of an image, the last of which is the instructions, where nothing stands yet.
fn push_parts(
    bytes: &mut Vec<u8>,
    width: u32,
    words: u32,
    digest: &[u8; 32],
    init: &[Datum],
    body: &[u8],
) -> Result<(), AllocError>
    requires empty { bytes.old.items ≡ [] }
    requires few { length init.now < 2 ^ 32 }
    ensures { OnOk result (bytes.new.items ≡ ((codes "TTAI"
        ++ (to_be_bytes w32 (version_of init.now)
        ++ (to_be_bytes w32 width ++ (to_be_bytes w32 words ++ digest.now))))
        ++ data_section init.now) ++ body.now) }
{
    bytes.extend_from_slice(b"TTAI")?;
    bytes.extend_from_slice(&version_of(init).to_be_bytes())?;
    bytes.extend_from_slice(&width.to_be_bytes())?;
    bytes.extend_from_slice(&words.to_be_bytes())?;
    bytes.extend_from_slice(digest)?;
    push_section(bytes, init)?;
    bytes.extend_from_slice(body)
}

/// Where the parts of each bus begin in its lists.
fn all_starts(alloc: Global, layout: &Layout) -> Result<Items<Starts>, AllocError>
    ensures { IfOk result (λ v. length v ≡ length layout.now.buses) }
{
    let buses = layout.buses.as_slice();
    let mut starts = Vec::with_capacity(alloc, buses.len())?;
    for fields in buses {
        starts.push(Starts::of(fields))?;
    }
    Ok(Items::of(starts))
}

/// The bits of instructions as bytes, the last of them filled up with zero bits.
fn pack_words(
    alloc: Global,
    layout: &Layout,
    m: &Machine,
    words: &[Instruction],
) -> Result<Vec<u8>, AllocError>
    requires layout { layout.now ≡ layout_of m.now }
    requires order { AreInOrder layout.now.buses }
    requires fits { word_width m.now < 2 ^ 32 }
    requires slots { All (λ i. length i.moves ≡ length m.now.buses) words.now }
    ensures { IfOk result (λ v.
        AreBytesOf (flat_map (instruction_bits m.now) words.now) v.items) }
{
    let starts = all_starts(alloc, layout)?;
    let codes = Codes {
        layout,
        starts: &starts,
    };
    let mut sink = BitSink::new(alloc);
    push_words(&codes, m, &mut sink, words)?;
    sink.into_bytes()
}

/// The image of code with data: a header with the digest of the machine's text, the data if any,
/// and the instructions bit by bit. The code must be legal for the machine, and the data be within
/// its data space. It fails only where there is no memory.
pub fn write_image(
    alloc: Global,
    whole: &Whole,
    m: &Machine,
    digest: &[u8; 32],
) -> Result<Vec<u8>, AllocError>
    requires legal { IsLegalCode m.now whole.now.code }
    requires data { fits m.now.data_words whole.now.init ≡ true }
    ensures { IfOk result (λ v. Image m.now digest.now whole.now v.items) }
{
    // The sources and destinations of a bus are in order by the rules of a machine.
    m.rules();
    let layout = Layout::of(alloc, m)?;
    let body = pack_words(alloc, &layout, m, whole.code.words.as_slice())?;
    let mut bytes = Vec::new(alloc);
    push_parts(
        &mut bytes,
        layout.width,
        count_words(&whole.code, m),
        digest,
        whole.init.as_slice(),
        body.as_slice(),
    )?;
    Ok(bytes)
}
