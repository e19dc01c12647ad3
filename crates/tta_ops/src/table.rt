//! The operations that units offer, noted once.

ghost use Rattle.std.specs.Prelude.{◌≡◌, ◌<◌, ◌≤◌, ◌+◌, ◌++◌, ◌∷◌, [], None, false, length};
ghost use Rattle.std.specs.Prelude.{OnOk, IfOk, sum_by};
ghost use Rattle.std.specs.String.{string_bytes};
ghost use Rattle.tta_ops.specs.Reserved.{is_reserved, AreFree};
ghost use Rattle.tta_ops.specs.Units.{first_at, AreDistinct, AreArities};
ghost use Rattle.tta_ops.specs.Row.{Row, names_of, arities_of};

use crate::error::OpsError;
use crate::operations::Operations;
use crate::place::Place;
use crate::reserved::is_reserved;
use crate::unit::OpUnit;
use std::alloc::{AllocError, Global};

/// The operations of some units, with different names, each of which takes 1 or 2 words.
#[derive(Drop)]
pub struct OperationTable {
    pub operations: Operations,
    ghost few: { length (names_of operations) < 65537 },
    ghost distinct: { AreDistinct (names_of operations) },
    ghost reserved: { AreFree (names_of operations) },
    ghost one_or_two: { AreArities (arities_of operations) },
}

impl OperationTable {
    ghost use Rattle.tta_ops.specs.Offers.{row_of, unit_rows, rows_from};
    ghost use Rattle.tta_ops.specs.Refusal.{refusal_of, first_refusal, IsWalkResult};

    /// A table without operations.
    fn new(alloc: Global) -> Self
        ensures { result.operations ≡ [] }
    {
        OperationTable {
            operations: Operations::new(alloc),
        }
    }

    /// Adds an operation that was not refused. It fails only where there is no memory.
    fn add(&mut self, name: String, place: Place) -> Result<(), AllocError>
        requires fresh { first_at (string_bytes name) 0 (names_of self.old.operations) ≡ None }
        requires free { is_reserved (string_bytes name) ≡ false }
        requires some { 0 < place.arity }
        requires two { place.arity < 3 }
        requires room { length self.old.operations < 65536 }
        ensures { let row : Row = record { name = string_bytes name; place = place } in
            OnOk result (self.new.operations ≡ self.old.operations ++ row ∷ []) }
    {
        self.operations.push(name, place)?;
        Ok(())
    }

    /// Adds the operation with this index of a unit, or refuses it.
    fn add_from<U: OpUnit>(
        &mut self,
        alloc: Global,
        offered: &U,
        unit: usize,
        index: usize,
    ) -> Result<(), OpsError>
        requires offered { index < U.unit_size offered.now }
        requires room { length self.old.operations < 65536 }
        ensures refusal { let row = row_of U.unit_name U.unit_arity unit offered.now index in
            IsWalkResult (refusal_of (names_of self.old.operations) row) result }
        ensures ok { let row = row_of U.unit_name U.unit_arity unit offered.now index in
            OnOk result (self.new.operations ≡ self.old.operations ++ row ∷ []) }
    {
        let text = offered.name(index);
        if is_reserved(text.as_bytes()) {
            return Err(OpsError::Reserved { unit, index });
        }
        if self.operations.find(text).is_some() {
            return Err(OpsError::Twice { unit, index });
        }
        let arity = offered.arity(index);
        let name = String::from_str(alloc, text)?;
        self.add(name, Place { arity, unit, index })?;
        Ok(())
    }

    /// Adds all operations of a unit, up to the first that is refused.
    fn add_unit<U: OpUnit>(
        &mut self,
        alloc: Global,
        offered: &U,
        unit: usize,
    ) -> Result<(), OpsError>
        requires { length self.old.operations + U.unit_size offered.now ≤ 65536 }
        ensures refusal { IsWalkResult (first_refusal (names_of self.old.operations)
            (unit_rows U.unit_size U.unit_name U.unit_arity unit offered.now)) result }
        ensures ok { let rows = unit_rows U.unit_size U.unit_name U.unit_arity unit offered.now in
            OnOk result (self.new.operations ≡ self.old.operations ++ rows) }
    {
        for index in 0..offered.count() {
            self.add_from(alloc, offered, unit, index)?;
        }
        Ok(())
    }

    /// The operations of these units, which are at most 65,536, unless one is refused.
    pub fn of<U: OpUnit>(alloc: Global, units: &[U]) -> Result<Self, OpsError>
        requires { sum_by U.unit_size units.now ≤ 65536 }
        ensures refusal { let rows = rows_from U.unit_size U.unit_name U.unit_arity 0 units.now in
            IsWalkResult (first_refusal [] rows) result }
        ensures ok { let rows = rows_from U.unit_size U.unit_name U.unit_arity 0 units.now in
            IfOk result (λ table. table.operations ≡ rows) }
    {
        let mut table = OperationTable::new(alloc);
        let mut unit = 0;
        for offered in units {
            table.add_unit(alloc, offered, unit)?;
            unit += 1;
        }
        Ok(table)
    }
}
