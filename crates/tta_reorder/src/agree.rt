//! Whether numbers are an order of a list's items, and the list in that order.

ghost use Rattle.std.specs.Prelude.{◌≡◌, not, true, false, length, replicate};
ghost use Rattle.std.specs.Prelude.{slice_get, slice_set, IfOk, OnOk, IfSome};
ghost use Rattle.std.specs.Option.{option_map_or};
ghost use Rattle.tta_moves.specs.Slots.{is_list};
ghost use Rattle.tta_optim.specs.Kept.{KeepsMeaning, AsksNoMore};
ghost use Rattle.tta_reorder.specs.Channels.{may_wait};
ghost use Rattle.tta_reorder.specs.Orders.{bare, picked, settled, AreInPlace, IsOrder};
ghost use Rattle.tta_reorder.specs.Rows.{none_changed, rows_from, table_after, agrees, table_by};
ghost use Rattle.tta_reorder.specs.Rows.{found, same_found};

use crate::ends::{in_limits, same_ends, same_parts};
use crate::operations::started;
use crate::rows::{Found, Table, same_found};
use crate::slots::{part_at, parts_of};
use std::alloc::{AllocError, Global};
use tta_arch::{Machine, Op};
use tta_connect::TargetMachine;
use tta_moves::{BlockList, Item, is_list};
use tta_optim::with_items;

/// Whether an item takes a word of the input.
fn may_wait(m: &Machine, x: Item) -> bool
    ensures { result ≡ may_wait m.now x }
{
    match started(m, x) {
        None => false,
        Some(op) => matches!(op, Op::Take),
    }
}

/// How many items the last that may wait and those before it are.
pub fn settled(m: &Machine, items: &[Item]) -> usize
    ensures { result ≡ settled m.now items.now }
{
    let mut count = 0;
    for (n, x) in items.iter().enumerate() {
        count = if may_wait(m, *x) { n + 1 } else { count };
    }
    count
}

/// Whether the first numbers, so many, count up from 0.
pub fn count_up(numbers: &[usize], count: usize) -> bool
    ensures { result ≡ true → AreInPlace count numbers.now }
{
    for k in 0..count {
        match numbers.get(k) {
            Some(n) if *n == k => {}
            _ => return false,
        }
    }
    true
}

/// The item of a number, if there is one.
fn item_at(items: &[Item], n: usize) -> Option<Item>
    ensures { result ≡ slice_get items.now n }
{
    match items.get(n) {
        None => None,
        Some(x) => Some(*x),
    }
}

/// Whether a number is that of an item and not marked.
fn is_free(marks: &[bool], n: usize) -> bool
    ensures { result ≡ option_map_or (λ b. not b) (slice_get marks.now n) false }
{
    match marks.get(n) {
        None => false,
        Some(b) => !*b,
    }
}

/// Marks a number.
fn mark(marks: &mut Vec<bool>, n: usize)
    ensures { marks.new.items ≡ slice_set marks.old.items n true }
{
    if n < marks.len() {
        marks[n] = true;
    }
}

/// Whether an item finds what the same item of the list found.
fn finds(m: &Machine, table: &Table, rows: &[Found], part: u16, n: usize, x: Item) -> bool
    ensures { result ≡ option_map_or (λ row. same_found (found m.now part table.now x) row)
        (slice_get rows.now n) false }
{
    match rows.get(n) {
        None => false,
        Some(row) => same_found(table.found(m, part, x), *row),
    }
}

/// What each item of a list finds; the table is then that after the list. The only error is out of
/// memory.
fn rows_of(
    alloc: Global,
    table: &mut Table,
    m: &Machine,
    parts: &[u16],
    items: &[Item],
) -> Result<Vec<Found>, AllocError>
    ensures found { IfOk result (λ v.
        v.items ≡ rows_from m.now parts.now none_changed 0 items.now) }
    ensures end { OnOk result (
        table.new ≡ table_after m.now parts.now none_changed 0 items.now) }
{
    table.begin();
    let mut found = Vec::with_capacity(alloc, items.len())?;
    for (n, x) in items.iter().enumerate() {
        let part = part_at(parts, n);
        let row = table.found(m, part, *x);
        table.pass(m, part, n, *x);
        found.push(row)?;
    }
    Ok(found)
}

/// A list's items, and the part of the frame space that each uses.
#[derive(Clone, Copy)]
struct Listed<'a> {
    m: &'a Machine,
    items: &'a [Item],
    parts: &'a [u16],
}

/// Whether each number is that of an item, none is there twice, and each item finds what it found in
/// the list, by the rows; the table is then that after the items. The only error is out of memory.
fn agrees(
    alloc: Global,
    table: &mut Table,
    list: &Listed<'_>,
    rows: &[Found],
    numbers: &[usize],
) -> Result<bool, AllocError>
    ensures agree { let on = list.now in IfOk result (λ b. b ≡ true
        → agrees on.m.now on.parts.now on.items.now rows.now none_changed
        (replicate (length on.items.now) false) numbers.now ≡ true) }
    ensures end { let on = list.now in IfOk result (λ b. b ≡ true
        → table.new ≡ table_by on.m.now on.parts.now on.items.now none_changed numbers.now) }
{
    table.begin();
    let m = list.m;
    let mut marks = vec![in alloc; false; list.items.len()]?;
    for n in numbers {
        let Some(x) = item_at(list.items, *n) else {
            return Ok(false);
        };
        let part = part_at(list.parts, *n);
        if !finds(m, table, rows, part, *n, x) {
            return Ok(false);
        }
        if !is_free(marks.as_slice(), *n) {
            return Ok(false);
        }
        table.pass(m, part, *n, x);
        mark(&mut marks, *n);
    }
    Ok(true)
}

/// The items of numbers. The only error is out of memory.
fn pick(alloc: Global, items: &[Item], numbers: &[usize]) -> Result<Vec<Item>, AllocError>
    ensures { IfOk result (λ v. v.items ≡ bare (picked items.now numbers.now)) }
{
    let mut out = Vec::with_capacity(alloc, numbers.len())?;
    for n in numbers {
        if let Some(x) = item_at(items, *n) {
            out.push(x)?;
        }
    }
    Ok(out)
}

/// What orders are checked with: a table for the list as it is and one for its items in another
/// order. They serve one list after another.
#[derive(Drop)]
pub struct Checker {
    own: Table,
    other: Table,
}

impl Checker {
    /// The tables for any number of lists. The only error is out of memory.
    pub fn new(alloc: Global) -> Result<Self, AllocError> {
        let own = Table::new(alloc)?;
        let other = Table::new(alloc)?;
        Ok(Checker { own, other })
    }

    /// The list of a block in another order, which is given by the numbers of its items, counted
    /// from 0; none where they are no order, or where it is not known that they are one. Numbers may
    /// be missing of items for which nothing asks, but the last item that may wait and those before
    /// it stay where they are. The only error is out of memory.
    pub fn in_order(
        &mut self,
        alloc: Global,
        b: &BlockList,
        on: &TargetMachine<'_>,
        numbers: &[usize],
    ) -> Result<Option<BlockList>, AllocError>
        requires list { is_list on.now.machine.now b.now.items ≡ true }
        ensures order { let m = on.now.machine.now in IfOk result (λ o. IfSome o (λ r.
            IsOrder m b.now.live_out b.now.items (picked b.now.items numbers.now))) }
        ensures items { IfOk result (λ o. IfSome o (λ r.
            r.items ≡ bare (picked b.now.items numbers.now))) }
        ensures meaning { let m = on.now.machine.now in IfOk result (λ o. IfSome o (λ r.
            KeepsMeaning m b.now.live_out b.now.items r.items)) }
        ensures no_more { let m = on.now.machine.now in IfOk result (λ o. IfSome o (λ r.
            AsksNoMore m b.now.items r.items)) }
        ensures live { IfOk result (λ o. IfSome o (λ r. r.live_out ≡ b.now.live_out)) }
    {
        let m = on.machine;
        m.rules();
        let items = b.items.as_slice();
        let live = b.live_out.as_slice();
        let front = settled(m, items);
        if !count_up(numbers, front) {
            return Ok(None);
        }
        if !in_limits(live) {
            return Ok(None);
        }
        let found = parts_of(alloc, m, items)?;
        let parts = found.as_slice();
        let rows = rows_of(alloc, &mut self.own, m, parts, items)?;
        let other = &mut self.other;
        let list = Listed { m, items, parts };
        let fits = agrees(alloc, other, &list, rows.as_slice(), numbers)?;
        if !fits {
            return Ok(None);
        }
        if !same_ends(live, other, &self.own) {
            return Ok(None);
        }
        if !same_parts(m, parts, items, other, &self.own) {
            return Ok(None);
        }
        let others = pick(alloc, items, numbers)?;
        let r = with_items(alloc, b, others)?;
        if !is_list(m, on.net, &r) {
            return Ok(None);
        }
        Ok(Some(r))
    }
}
