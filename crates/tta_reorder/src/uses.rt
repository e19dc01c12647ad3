//! What each item of a list asks for and what it changes, for whoever chooses an order.

use crate::channels::{CHANNELS, DATA, FRAME, TRAFFIC};
use crate::slots::{part_at, parts_of};
use std::alloc::{AllocError, Global};
use tta_arch::{Dest, Machine, Op, Source, UnitOp};
use tta_list::entry_at;
use tta_moves::numbers::{guard_place, operand, port, read_place, written_place};
use tta_moves::parts::{is_control, is_unguarded, operation, source_of};
use tta_moves::{Item, ItemSource};

/// The channels that an item asks for and those that it may change, each by its number. There is one
/// of these for each item of a list, so they are kept short.
#[derive(Clone, Copy)]
pub struct Uses {
    pub source: Option<u16>,
    pub guard: Option<u16>,
    pub operand: Option<u16>,
    /// The space that its operation loads from or stores into, or the traffic that it is part of.
    pub used: Option<u16>,
    pub written: Option<u16>,
    /// The space that its operation stores into, or the traffic that it is part of.
    pub stored: Option<u16>,
    /// The unit that it starts, by the number after those of channels.
    pub trigger: Option<u16>,
    pub is_guarded: bool,
    /// Whether it moves a result into a register of 32 bits, in any case.
    pub is_copy: bool,
    /// How many cycles after its own what it writes shows.
    pub shows: u8,
    /// How many cycles it takes.
    pub takes: u8,
}

/// Whether a file has registers of 32 bits.
fn is_wide(m: &Machine, file: u8) -> bool {
    match entry_at(m.files.as_slice(), file) {
        None => false,
        Some(f) => f.width == 32,
    }
}

/// Whether an item without a guard moves a result into a register of 32 bits.
fn is_copy(m: &Machine, x: Item) -> bool {
    match x {
        Item::Move {
            guard: None,
            src: ItemSource::Port(Source::Shown { .. }),
            dst: Dest::Reg { file, .. },
        } => is_wide(m, file),
        _ => false,
    }
}

/// The number of a channel, in short. All are below 2^16.
fn short(channel: Option<usize>) -> Option<u16> {
    let Some(c) = channel else {
        return None;
    };
    match u16::try_from(c) {
        Ok(k) => Some(k),
        Err(_) => None,
    }
}

/// The space, the part of the frame space or the traffic that an operation uses.
fn space_of(op: Op, part: u16) -> Option<usize> {
    match op {
        Op::Ldw | Op::Stw => Some(DATA),
        Op::Ldf | Op::Stf => Some(FRAME + usize::from(part)),
        Op::Out | Op::Take => Some(TRAFFIC),
        Op::Set(_) => None,
    }
}

/// Whether an operation changes the space that it uses, or is traffic.
fn changes_space(op: Op) -> bool {
    matches!(op, Op::Stw | Op::Stf | Op::Out | Op::Take)
}

/// How many cycles an item takes that starts no operation: a control item those until its effect
/// shows.
fn takes(m: &Machine, x: Item) -> u8 {
    if is_control(x) {
        m.control.delay.saturating_add(1)
    } else {
        1
    }
}

/// What an item uses that starts no operation.
fn uses_of_move(m: &Machine, x: Item) -> Uses {
    Uses {
        source: short(read_place(source_of(x))),
        guard: short(guard_place(x)),
        operand: None,
        used: None,
        written: short(written_place(m, x)),
        stored: None,
        trigger: None,
        is_guarded: !is_unguarded(x),
        is_copy: is_copy(m, x),
        shows: 1,
        takes: takes(m, x),
    }
}

/// What an item uses that starts an operation of a unit.
fn uses_of_start(x: Item, unit: u8, o: UnitOp, part: u16) -> Uses {
    let used = short(space_of(o.op, part));
    let due = if o.op.has_result() {
        o.latency.max(1)
    } else {
        1
    };
    Uses {
        source: short(read_place(source_of(x))),
        guard: short(guard_place(x)),
        operand: if o.arity == 2 {
            short(Some(operand(unit)))
        } else {
            None
        },
        used,
        written: if o.op.has_result() {
            short(Some(port(unit)))
        } else {
            None
        },
        stored: if changes_space(o.op) { used } else { None },
        trigger: short(Some(CHANNELS + usize::from(unit))),
        is_guarded: !is_unguarded(x),
        is_copy: false,
        shows: due,
        takes: due,
    }
}

/// What an item uses, which uses this part of the frame space, if it uses one.
fn uses_of(m: &Machine, part: u16, x: Item) -> Uses {
    let Item::Move {
        dst: Dest::Trigger { unit, op },
        ..
    } = x
    else {
        return uses_of_move(m, x);
    };
    match operation(m, unit, op) {
        None => uses_of_move(m, x),
        Some(o) => uses_of_start(x, unit, o, part),
    }
}

/// What each item of a list uses. The only error is out of memory.
pub fn all_uses(alloc: Global, m: &Machine, items: &[Item]) -> Result<Vec<Uses>, AllocError> {
    let parts = parts_of(alloc, m, items)?;
    let mut all = Vec::with_capacity(alloc, items.len())?;
    for (n, x) in items.iter().enumerate() {
        all.push(uses_of(m, part_at(parts.as_slice(), n), *x))?;
    }
    Ok(all)
}
