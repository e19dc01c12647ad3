//! What an assembly text is assembled for.

ghost use Rattle.tta_connect.specs.Net.{IsNetOf};
ghost use Rattle.tta_asm.specs.Table.{IsTableOf, listed};

use crate::parts::Part;
use crate::table::NameTable;
use tta_arch::Machine;
use tta_connect::Net;
use tta_ops::UnitSet;

/// What an assembly text is assembled for: a machine over operation units, with what is prepared of
/// it once, so that no look-up walks over the machine.
#[derive(Drop)]
pub struct Target<'a> {
    pub units: &'a UnitSet,
    pub machine: &'a Machine,
    /// Which buses join which ports.
    pub net: &'a Net,
    /// What names stand for.
    pub table: &'a NameTable,
    ghost net_of: { IsNetOf net.now machine.now },
    ghost table_of: { IsTableOf (listed units.now) machine.now table.now },
}

impl<'a> Target<'a> {
    ghost use Rattle.std.specs.Prelude.{◌≡◌};
    ghost use Rattle.tta_parse.specs.Names.{named_in};
    ghost use Rattle.tta_ops.specs.Set.{stated};
    ghost use Rattle.tta_asm.specs.Parts.{parts_of};
    ghost use Rattle.tta_asm.specs.Table.{op_named};

    /// The part of the machine that has this name.
    pub fn part(&self, name: &[u8]) -> Option<Part>
        ensures { result ≡ named_in (parts_of self.now.machine.now) name.now }
    {
        self.table.part(name)
    }

    /// The operation of a unit that has this name, by its place in the unit.
    pub fn op(&self, unit: u8, name: &[u8]) -> Option<u8>
        ensures { result ≡ op_named (stated unit_meaning self.now.units.now)
            self.now.machine.now unit name.now }
    {
        self.table.op(unit, name)
    }
}
