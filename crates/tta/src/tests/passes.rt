//! One list through all three passes.

ghost use Rattle.tta_connect.specs.Net.{IsNetOf};

use std::alloc::{AllocError, Global};
use std::test::Fail;
use tta_arch::{Dest, Machine, Source};
use tta_connect::Net;
use tta_list::Items;
use tta_machine::read_machine;
use tta_moves::{BlockList, Item, ItemSource, is_list};
use tta_ops::UnitSet;
use tta_optim::optimise;

/// A machine with a unit that loads and stores.
const MACHINE: &str = "bus B short 8 unsigned\n\
     socket I in B\n\
     socket O out B\n\
     file R width 32 size 4 read 1 write 1 out O in I\n\
     unit LSU o I t I r O\n\
     op LSU ldw 2\n\
     op LSU stw\n\
     control delay 0 address 8 t I\n\
     space data 16\n";

fn go(src: Source, dst: Dest) -> Item {
    Item::Move {
        guard: None,
        src: ItemSource::Port(src),
        dst,
    }
}

/// Loads the word at 4 and stores it at its own value, which goes into the operand port twice.
fn items(alloc: Global) -> Result<Vec<Item>, AllocError> {
    let register = Source::Reg { file: 0, index: 3 };
    let items = vec![in alloc;
        go(Source::Value(4), Dest::Trigger { unit: 0, op: 0 }),
        go(Source::Shown { unit: 0 }, Dest::Reg { file: 0, index: 3 }),
        go(register, Dest::Operand { unit: 0 }),
        go(register, Dest::Operand { unit: 0 }),
        go(register, Dest::Trigger { unit: 0, op: 1 }),
    ]?;
    Ok(items)
}

/// That list, after which the register is read or not.
fn list(alloc: Global, live: bool) -> Result<BlockList, AllocError> {
    let mut live_out = Items::new(alloc);
    if live {
        live_out.push((0, 3))?;
    }
    Ok(BlockList {
        items: Items::of(items(alloc)?),
        live_out,
    })
}

/// How many items a list has after all three passes, 0 where it is no list of the machine.
fn left_of(alloc: Global, b: &BlockList, m: &Machine, net: &Net) -> Result<usize, AllocError>
    requires net { IsNetOf net.now m.now }
{
    if !is_list(m, net, b) {
        return Ok(0);
    }
    let r = optimise(alloc, b, m, net)?;
    Ok(r.items.len())
}

/// The same of the list above.
fn left_over(alloc: Global, m: &Machine, net: &Net, live: bool) -> Result<usize, AllocError>
    requires net { IsNetOf net.now m.now }
{
    let b = list(alloc, live)?;
    let left = left_of(alloc, &b, m, net);
    drop(b);
    left
}

/// The same for a machine.
fn left(alloc: Global, m: &Machine, live: bool) -> Result<usize, AllocError> {
    let net = Net::of(alloc, m)?;
    let left = left_over(alloc, m, &net, live);
    drop(net);
    left
}

#[test]
fn passes(rt: HostRuntime) -> Result<(), Fail> {
    let alloc = rt.alloc();
    let Ok(units) = UnitSet::new(alloc, Vec::new(alloc)) else {
        return Err(Fail::new(format_args!("no units")));
    };
    let Ok(m) = read_machine(alloc, MACHINE.as_bytes(), &units) else {
        return Err(Fail::new(format_args!("no machine")));
    };
    let dead = left(alloc, &m, false);
    let live = left(alloc, &m, true);
    drop(m);
    drop(units);
    assert!(rt; dead? == 3);
    assert!(rt; live? == 4);
    Ok(())
}
