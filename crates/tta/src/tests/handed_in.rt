//! A unit that is handed in, with one operation that no standard unit offers: it is found by its
//! name, applied and run, and refused where it is handed in twice.

use super::host::Host;
use std::alloc::{AllocError, Global};
use std::test::Fail;
use tta_ops::{Arith, OpUnit, OpsError, UnitSet};
use tta_tool::Status;

const MACHINE: &str = "bus B short 8 unsigned\n\
     socket I in B\n\
     socket O out B\n\
     unit OUT t I r O\n\
     op OUT out\n\
     op OUT bitrev 1\n\
     control delay 0 address 8 t I\n";

const TEXTS: [(&str, &str); 3] = [
    ("M", MACHINE),
    ("P", "proc main\na = bitrev 1\nout a\nend\n"),
    ("I", ""),
];

/// One operation, which reverses the bits of a word.
#[derive(Clone, Copy)]
struct Bitrev;

impl OpUnit for Bitrev {
    ghost use Rattle.std.specs.Prelude.{codes};
    ghost use Rattle.std.specs.Int.{reverse_bits, w32};

    ghost unit_size = { λ _. 1 };

    ghost unit_name = { λ _ _. codes "bitrev" };

    ghost unit_arity = { λ _ _. 1 };

    ghost unit_meaning = { λ _ _ a b. reverse_bits w32 b };

    fn count(&self) -> usize {
        1
    }

    fn name(&self, _i: usize) -> &str {
        "bitrev"
    }

    fn arity(&self, _i: usize) -> u8 {
        1
    }

    fn apply(&self, _i: usize, _a: u32, b: u32) -> u32 {
        b.reverse_bits()
    }
}

// Puts the standard unit of whole numbers at the end, and so many times the unit that is handed in.
fn add_units(
    alloc: Global,
    boxes: &mut Vec<Box<dyn OpUnit>>,
    times: usize,
) -> Result<(), AllocError> {
    let arith: Box<dyn OpUnit> = Box::new(alloc, Arith)?;
    if boxes.push(arith).is_err() {
        return Err(AllocError);
    }
    for _ in 0..times {
        let bitrev: Box<dyn OpUnit> = Box::new(alloc, Bitrev)?;
        if boxes.push(bitrev).is_err() {
            return Err(AllocError);
        }
    }
    Ok(())
}

// A set of these units.
pub fn units_of(alloc: Global, times: usize) -> Result<UnitSet, OpsError> {
    let mut boxes: Vec<Box<dyn OpUnit>> = Vec::new(alloc);
    if add_units(alloc, &mut boxes, times).is_err() {
        drop(boxes);
        return Err(OpsError::NoMemory);
    }
    if !UnitSet::fits(boxes.as_slice()) {
        drop(boxes);
        return Err(OpsError::NoMemory);
    }
    UnitSet::new(alloc, boxes)
}

// Whether the operation that is handed in is found, with its number, its arity and its meaning.
fn is_found(units: &UnitSet) -> bool {
    match units.find("bitrev") {
        Some(op) => {
            op.0 == 5 && units.arity(op) == 1 && units.apply(op, 9, 0x0000_000d) == 0xb000_0000
        }
        None => false,
    }
}

// Whether the program prints the reversed word over these units.
fn is_run(alloc: Global, units: &UnitSet) -> Result<bool, AllocError> {
    let mut host = Host::new(alloc, &TEXTS, b"");
    host.units = Some(units);
    let output = "2147483648\nhalted\nsteps 3\n";
    host.prints(&["exec", "M", "P", "I", "100"], Status::Ok, output)
}

#[test]
fn handed_in_operation_is_found_and_run(rt: HostRuntime) -> Result<(), Fail> {
    let units = units_of(rt.alloc(), 1)?;
    let is_found = is_found(&units);
    let is_run = is_run(rt.alloc(), &units);
    drop(units);
    assert!(rt; is_found);
    assert!(rt; is_run?);
    Ok(())
}

#[test]
fn handed_in_operation_is_refused_twice(rt: HostRuntime) -> Result<(), Fail> {
    let refusal = units_of(rt.alloc(), 2).err();
    assert!(rt; refusal == Some(OpsError::Twice { unit: 2, index: 0 }));
    Ok(())
}
