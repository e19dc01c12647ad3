//! One list, placed one item in a cycle and by first fit.

ghost use Rattle.tta_connect.specs.Net.{IsNetOf};

use super::handed_in::units_of;
use std::alloc::{AllocError, Global};
use std::test::Fail;
use tta_arch::{Dest, Machine, Source};
use tta_connect::Net;
use tta_list::Items;
use tta_machine::read_machine;
use tta_moves::{BlockList, Item, ItemSource, Placed, Slot, is_list};
use tta_sched::{place_block, place_serial};

/// Three buses that join all ports, a file of two reads, another of one write, and two units.
const MACHINE: &str = "bus B0 short 8 signed\n\
     bus B1 short 8 signed\n\
     bus B2 short 8 signed\n\
     socket I in B0 B1 B2\n\
     socket O out B0 B1 B2\n\
     file R width 32 size 8 read 2 write 2 out O in I\n\
     file S width 32 size 8 read 1 write 1 out O in I\n\
     unit ALU o I t I r O\n\
     op ALU add 1\n\
     unit MUL o I t I r O\n\
     op MUL mul 3\n\
     control delay 2 address 12 t I\n";

/// The multiplier and the unit that adds.
const MUL: u8 = 1;

const ALU: u8 = 0;

/// One item in a cycle, each when all results before it are due.
const SERIAL: [u32; 6] = [0, 1, 4, 5, 6, 7];

/// First fit: the fourth item finds both reads of its file taken in the first cycle.
const FIRST: [(u32, u8); 6] = [(0, 0), (0, 1), (3, 0), (1, 0), (1, 1), (2, 0)];

const FIRST_LENGTH: u32 = 4;

fn go(src: Source, dst: Dest) -> Item {
    Item::Move {
        guard: None,
        src: ItemSource::Port(src),
        dst,
    }
}

fn read(index: u8, dst: Dest) -> Item {
    go(Source::Reg { file: 0, index }, dst)
}

/// A product and a sum, each of two registers and into one.
fn list(alloc: Global) -> Result<BlockList, AllocError> {
    let items = vec![in alloc;
        read(3, Dest::Operand { unit: MUL }),
        read(4, Dest::Trigger { unit: MUL, op: 0 }),
        go(Source::Shown { unit: MUL }, Dest::Reg { file: 0, index: 5 }),
        read(6, Dest::Operand { unit: ALU }),
        read(7, Dest::Trigger { unit: ALU, op: 0 }),
        go(Source::Shown { unit: ALU }, Dest::Reg { file: 1, index: 0 }),
    ]?;
    Ok(BlockList {
        items: Items::of(items),
        live_out: Items::new(alloc),
    })
}

fn is_serial(placed: &Placed) -> bool {
    for (k, x) in placed.items.as_slice().iter().enumerate() {
        if k >= SERIAL.len() || x.cycle != SERIAL[k] {
            return false;
        }
    }
    placed.items.len() == SERIAL.len()
}

fn is_first(placed: &Placed) -> bool {
    for (k, x) in placed.items.as_slice().iter().enumerate() {
        if k >= FIRST.len() || x.cycle != FIRST[k].0 || x.slot != Slot::Bus(FIRST[k].1) {
            return false;
        }
    }
    placed.items.len() == FIRST.len() && placed.length == FIRST_LENGTH
}

// Whether a list of the machine is placed so, one item in a cycle.
fn places_serial(alloc: Global, b: &BlockList, m: &Machine, net: &Net) -> Result<bool, AllocError>
    requires net { IsNetOf net.now m.now }
{
    if !is_list(m, net, b) {
        return Ok(false);
    }
    let placed = place_serial(alloc, b, m, net)?;
    Ok(is_serial(&placed))
}

// Whether a list of the machine is placed so by first fit.
fn places_first(alloc: Global, b: &BlockList, m: &Machine, net: &Net) -> Result<bool, AllocError>
    requires net { IsNetOf net.now m.now }
{
    if !is_list(m, net, b) {
        return Ok(false);
    }
    let placed = place_block(alloc, b, m, net)?;
    Ok(is_first(&placed))
}

// Whether a list of the machine is placed so both ways.
fn places(alloc: Global, b: &BlockList, m: &Machine, net: &Net) -> Result<bool, AllocError>
    requires net { IsNetOf net.now m.now }
{
    Ok(places_serial(alloc, b, m, net)? && places_first(alloc, b, m, net)?)
}

// Whether the list is placed so over a machine with this net.
fn places_list(alloc: Global, m: &Machine, net: &Net) -> Result<bool, AllocError>
    requires net { IsNetOf net.now m.now }
{
    let b = list(alloc)?;
    let is_placed = places(alloc, &b, m, net);
    drop(b);
    is_placed
}

// Whether the list is placed so over a machine.
fn places_over(alloc: Global, m: &Machine) -> Result<bool, AllocError> {
    let net = Net::of(alloc, m)?;
    let is_placed = places_list(alloc, m, &net);
    drop(net);
    is_placed
}

#[test]
fn list_is_placed_both_ways(rt: HostRuntime) -> Result<(), Fail> {
    let alloc = rt.alloc();
    let units = units_of(alloc, 0)?;
    let Ok(m) = read_machine(alloc, MACHINE.as_bytes(), &units) else {
        return Err(Fail::new(format_args!("no machine")));
    };
    let is_placed = places_over(alloc, &m);
    drop(m);
    drop(units);
    assert!(rt; is_placed?);
    Ok(())
}
