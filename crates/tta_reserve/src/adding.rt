//! A row with one item more.

ghost use Rattle.std.specs.Prelude.{◌≡◌, ◌<◌, ◌^◌};
ghost use Rattle.tta_reserve.specs.Taken.{buses_of};
ghost use Rattle.tta_reserve.specs.Adding.{one_more, with_bit, with_dest, with_item};
ghost use Rattle.tta_reserve.specs.Adding.{with_item_source, with_move, with_source};
ghost use Rattle.tta_reserve.specs.Adding.{with_template};

use crate::row::Row;
use tta_arch::{Dest, Source, Template, bus_bit};
use tta_list::entry_at;
use tta_moves::{Item, ItemSource, Slot};

/// One more of the eight counts.
fn one_more(counts: [u8; 8], at: u8) -> [u8; 8]
    ensures { result ≡ one_more counts at }
{
    let place = usize::from(at);
    if place < 8 && counts[place] < 255 {
        let mut more = counts;
        more[place] = counts[place] + 1;
        return more;
    }
    counts
}

/// The set of this unit alone.
fn unit_bit(unit: u8) -> u8
    requires { unit < 8 }
    ensures { result ≡ 2 ^ unit }
{
    1 << unit
}

/// A set of buses with one bus more.
fn with_bus(buses: u16, bus: u8) -> u16
    ensures { result ≡ with_bit 16 buses bus }
{
    if bus < 16 {
        buses | bus_bit(usize::from(bus))
    } else {
        buses
    }
}

/// A set of immediate units with one unit more.
fn with_unit(units: u8, unit: u8) -> u8
    ensures { result ≡ with_bit 8 units unit }
{
    if unit < 8 {
        units | unit_bit(unit)
    } else {
        units
    }
}

/// A row with one read more.
fn with_source(r: Row, src: Source) -> Row
    ensures { result ≡ with_source src r }
{
    match src {
        Source::Reg { file, .. } => Row {
            reads: one_more(r.reads, file),
            ..r
        },
        Source::Imm { unit, .. } => Row {
            imms: with_unit(r.imms, unit),
            ..r
        },
        Source::Shown { .. } | Source::Ra | Source::Value(_) => r,
    }
}

/// A row with one read of an item more.
fn with_item_source(r: Row, src: ItemSource) -> Row
    ensures { result ≡ with_item_source src r }
{
    match src {
        ItemSource::Port(src) => with_source(r, src),
        ItemSource::Address(_) => r,
    }
}

/// A row with one write more.
fn with_dest(r: Row, dst: Dest) -> Row
    ensures { result ≡ with_dest dst r }
{
    match dst {
        Dest::Reg { file, .. } => Row {
            writes: one_more(r.writes, file),
            ..r
        },
        Dest::Operand { .. } | Dest::Trigger { .. } => r,
        Dest::Jump | Dest::Call | Dest::Halt => r,
    }
}

/// A row with one move more.
fn with_move(r: Row, bus: u8, src: ItemSource, dst: Dest) -> Row
    ensures { result ≡ with_move bus src dst r }
{
    let more = Row {
        moves: with_bus(r.moves, bus),
        ..r
    };
    with_dest(with_item_source(more, src), dst)
}

/// The buses that one of a machine's templates takes, none where it is not there.
fn buses_of(templates: &[Template], t: u8) -> u16
    ensures { result ≡ buses_of templates.now t }
{
    match entry_at(templates, t) {
        None => 0,
        Some(q) => q.buses,
    }
}

/// A row with a template that takes these buses.
fn with_template(r: Row, buses: u16) -> Row
    ensures { result ≡ with_template buses r }
{
    Row {
        taken: buses,
        template: true,
        ..r
    }
}

/// A row with one item more.
pub fn with_item(r: Row, templates: &[Template], item: Item, slot: Slot) -> Row
    ensures { result ≡ with_item templates.now item slot r }
{
    match item {
        Item::Move { src, dst, .. } => match slot {
            Slot::Bus(bus) => with_move(r, bus, src, dst),
            Slot::Template(_) => r,
        },
        Item::Long { .. } => match slot {
            Slot::Bus(_) => r,
            Slot::Template(t) => with_template(r, buses_of(templates, t)),
        },
    }
}
