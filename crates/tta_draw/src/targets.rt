//! Where the jumps and calls of code lead, as far as its text shows it.

ghost use Rattle.std.specs.Prelude.{◌≡◌, ◌≤◌, ◌==◌, ◌&&◌, ◌++◌, Some, [], length};
ghost use Rattle.std.specs.Prelude.{IfOk, OnOk};
ghost use Rattle.std.specs.Option.{option_map_or};
ghost use Rattle.tta_arch.specs.Effects.{first_some};
ghost use Rattle.tta_draw.specs.Targets.{leads, leading, source_word, target_of, arrow_to};
ghost use Rattle.tta_draw.specs.Targets.{arrows_of};
ghost use Rattle.tta_draw.specs.ImmediateWord.{is_of, known_word, learned, wrote};

use crate::delay_slots::delay_of;
use crate::span::Span;
use std::alloc::{AllocError, Global};
use tta_arch::{Dest, Machine, Source};
use tta_code::{Instruction, Long, Move};

/// The word that was written last into an immediate register.
#[derive(Clone, Copy, Debug, PartialEq, Eq)]
pub struct ImmediateWord {
    pub unit: u8,
    pub index: u8,
    pub word: u32,
}

/// Whether a move into this destination jumps or calls.
fn leads(dst: Dest) -> bool
    ensures { result ≡ leads dst }
{
    match dst {
        Dest::Jump | Dest::Call => true,
        Dest::Halt | Dest::Reg { .. } | Dest::Operand { .. } | Dest::Trigger { .. } => false,
    }
}

/// The move of a slot, if it jumps or calls.
fn leading(slot: Option<Move>) -> Option<Move>
    ensures { result ≡ leading slot }
{
    match slot {
        None => None,
        Some(v) => { if leads(v.dst) { Some(v) } else { None } }
    }
}

/// The first move that jumps or calls.
fn jump_in(slots: &[Option<Move>]) -> Option<Move>
    ensures { result ≡ first_some leading slots.now }
{
    for slot in slots {
        if let Some(v) = leading(*slot) {
            return Some(v);
        }
    }
    None
}

/// Whether a word is that of an immediate register.
fn is_of(k: ImmediateWord, unit: u8, index: u8) -> bool
    ensures { result ≡ is_of unit index k }
{
    k.unit == unit && k.index == index
}

/// The word of an immediate register, if it is known.
fn word_of(known: &[ImmediateWord], unit: u8, index: u8) -> Option<u32>
    ensures { result ≡ known_word known.now unit index }
{
    for k in known {
        if is_of(*k, unit, index) {
            return Some(k.word);
        }
    }
    None
}

/// The word of a source, where it is known.
fn source_word(known: &[ImmediateWord], src: Source) -> Option<u32>
    ensures { result ≡ source_word (known_word known.now) src }
{
    match src {
        Source::Value(word) => Some(word),
        Source::Imm { unit, index } => word_of(known, unit, index),
        Source::Reg { .. } | Source::Shown { .. } | Source::Ra => None,
    }
}

/// Where an instruction leads that jumps or calls, where it is known.
fn target_of(known: &[ImmediateWord], i: &Instruction) -> Option<u32>
    ensures { result ≡ target_of (known_word known.now) i.now }
{
    match jump_in(i.moves.as_slice()) {
        None => None,
        Some(v) => source_word(known, v.src),
    }
}

/// Keeps a word that is written into an immediate register, in place of what it had before.
fn learn(known: &mut Vec<ImmediateWord>, news: ImmediateWord) -> Result<(), AllocError>
    ensures { OnOk result (known.new.items ≡ learned news known.old.items) }
{
    for place in 0..known.len() {
        if is_of(known[place], news.unit, news.index) {
            known[place] = news;
            return Ok(());
        }
    }
    known.push(news)?;
    Ok(())
}

/// What a long immediate writes.
fn wrote(m: &Machine, long: Option<Long>) -> Option<ImmediateWord>
    ensures { result ≡ wrote m.now long }
{
    let Some(l) = long else {
        return None;
    };
    match m.templates.as_slice().get(usize::from(l.template)) {
        None => None,
        Some(t) => Some(ImmediateWord {
            unit: t.imm,
            index: t.reg,
            word: l.value,
        }),
    }
}

/// Keeps what a long immediate writes, if there is one.
fn learn_from(
    known: &mut Vec<ImmediateWord>,
    m: &Machine,
    long: Option<Long>,
) -> Result<(), AllocError>
    ensures { OnOk result
        (known.new.items ≡ option_map_or (λ k. learned k known.old.items) (wrote m.now long) known.old.items) }
{
    match wrote(m, long) {
        None => Ok(()),
        Some(news) => learn(known, news),
    }
}

/// Puts the arrow from a row to a target, if the row is one of so many, and the target is known and one
/// of them.
fn push_arrow_to(
    arrows: &mut Vec<Span>,
    rows: usize,
    from: usize,
    target: Option<u32>,
) -> Result<(), AllocError>
    requires { rows ≤ 65536 }
    ensures { OnOk result (arrows.new.items ≡ arrows.old.items ++ arrow_to rows from target) }
{
    let Some(to) = target else {
        return Ok(());
    };
    if from < rows && (to as usize) < rows {
        arrows.push(Span {
            from: from as u32,
            to,
        })?;
    }
    Ok(())
}

/// Puts the arrows of the jumps of rows.
fn push_arrows(
    arrows: &mut Vec<Span>,
    known: &mut Vec<ImmediateWord>,
    m: &Machine,
    words: &[Instruction],
) -> Result<(), AllocError>
    requires few { length words.now ≤ 65536 }
    requires known { known.old.items ≡ [] }
    ensures { OnOk result (arrows.new.items ≡ arrows.old.items ++ arrows_of m.now words.now) }
{
    let rows = words.len();
    for (row, i) in words.iter().enumerate() {
        let target = target_of(known.as_slice(), i);
        push_arrow_to(arrows, rows, row + delay_of(m), target)?;
        learn_from(known, m, i.long)?;
    }
    Ok(())
}

/// The arrows of jumps and calls of code whose targets are known and stand in the code, row by row. Each
/// leads from the last delay slot.
pub fn arrows_of(alloc: Global, m: &Machine, words: &[Instruction]) -> Result<Vec<Span>, AllocError>
    requires { length words.now ≤ 65536 }
    ensures { IfOk result (λ v. v.items ≡ arrows_of m.now words.now) }
{
    let mut arrows = Vec::new(alloc);
    let mut known = Vec::new(alloc);
    push_arrows(&mut arrows, &mut known, m, words)?;
    Ok(arrows)
}
