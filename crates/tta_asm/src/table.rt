//! What the names of a machine stand for, prepared for look-ups.

use crate::naming::{all_ops, all_parts};
use crate::parts::Part;
use std::alloc::{AllocError, Global};
use tta_arch::Machine;
use tta_list::Items;
use tta_ops::UnitSet;
use tta_parse::Names;

/// What the names of a machine stand for, made once, so that no look-up walks over the machine.
#[derive(Drop)]
pub struct NameTable {
    parts: Names<Part>,
    /// For each unit its operations, each with its place in the unit.
    ops: Items<Names<u8>>,
}

impl NameTable {
    ghost use Rattle.std.specs.Prelude.{◌≡◌, IfOk};
    ghost use Rattle.tta_parse.specs.Names.{named_in};
    ghost use Rattle.tta_ops.specs.Set.{stated};
    ghost use Rattle.tta_asm.specs.Table.{IsTableOf, named_at};

    /// The table of a machine. It fails only where there is no memory.
    pub fn of(alloc: Global, m: &Machine, units: &UnitSet) -> Result<NameTable, AllocError>
        ensures { IfOk result (IsTableOf (stated unit_meaning units.now) m.now) }
    {
        let parts = all_parts(alloc, m)?;
        let ops = all_ops(alloc, m, units)?;
        Ok(NameTable { parts, ops })
    }

    /// The part that has this name.
    pub fn part(&self, name: &[u8]) -> Option<Part>
        ensures { result ≡ named_in self.now.parts name.now }
    {
        self.parts.get(name)
    }

    /// The operation of a unit that has this name, by its place in the unit.
    pub fn op(&self, unit: u8, name: &[u8]) -> Option<u8>
        ensures { result ≡ named_at self.now.ops unit name.now }
    {
        self.ops.as_slice().get(usize::from(unit))?.get(name)
    }
}
