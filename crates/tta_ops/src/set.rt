//! A set of units.

ghost use Rattle.std.specs.Prelude.{◌≡◌, ◌<◌, ◌≤◌, ◌==◌, ◌↔◌, [], Some, IsTrue, IfSome, IfOk};
ghost use Rattle.std.specs.Prelude.{length, option_map, slice_get, slice_index, slice_index_or};
ghost use Rattle.std.specs.Prelude.{sum_by};
ghost use Rattle.tta_ops.specs.Units.{named};
ghost use Rattle.tta_ops.specs.Offers.{rows_from, IsOffered};
ghost use Rattle.tta_ops.specs.Refusal.{first_refusal, IsWalkResult};
ghost use Rattle.tta_ops.specs.Set.{meant_boxed, stated_boxed};

use crate::OpId;
use crate::error::OpsError;
use crate::table::OperationTable;
use crate::unit::{OpUnit, offer_at_most};
use crate::value::apply_at;
use std::alloc::Global;

/// Units, and the operations that they offered when the set was made.
#[derive(Drop)]
pub struct UnitSet {
    units: Vec<Box<dyn OpUnit>>,
    table: OperationTable,
}

impl UnitSet {
    /// The set of these units, which offer at most 65,536 operations.
    ///
    /// The operations are walked unit by unit, then by index, and the first that is refused is
    /// reported: `Reserved` where its name is a reserved word, `Twice` where an operation before it
    /// has its name. A refusal drops the units.
    #[tactic(auto, unfolding(crate::specs::Stated::stated_by))]
    pub fn new(alloc: Global, units: Vec<Box<dyn OpUnit>>) -> Result<Self, OpsError>
        requires few { sum_by (λ b. unit_size b) units.items ≤ 65536 }
        ensures refusal { let rows = rows_from
            (λ b. unit_size b) (λ b. unit_name b) (λ b. unit_arity b) 0 units.items in
            IsWalkResult (first_refusal [] rows) result }
        ensures offered { IfOk result (λ s. IsOffered
            (λ b. unit_size b) (λ b. unit_name b) (λ b. unit_arity b) (λ b. unit_meaning b)
            units.items (stated_boxed unit_meaning s)) }
    {
        let table = OperationTable::of(alloc, units.as_slice())?;
        Ok(UnitSet { units, table })
    }

    /// Whether the units offer at most 65,536 operations, so that a set may be made of them.
    pub fn fits(units: &[Box<dyn OpUnit>]) -> bool
        ensures { IsTrue result ↔ (sum_by (λ b. unit_size b) units.now ≤ 65536) }
    {
        offer_at_most(units, 65536)
    }

    /// How many operations the units offer.
    #[tactic(auto, unfolding(crate::specs::Stated::stated_by))]
    pub fn len(&self) -> usize
        ensures { result ≡ length (stated_boxed unit_meaning self.now).names }
    {
        self.table.operations.len()
    }

    /// Whether the units offer no operation.
    #[tactic(auto, unfolding(crate::specs::Stated::stated_by))]
    pub fn is_empty(&self) -> bool
        ensures { result ≡ (length (stated_boxed unit_meaning self.now).names == 0) }
    {
        self.len() == 0
    }

    /// The operation of this name, and `None` exactly where no unit offers the name.
    #[tactic(auto, unfolding(crate::specs::Stated::stated_by))]
    pub fn find(&self, name: &str) -> Option<OpId>
        ensures found { let U = stated_boxed unit_meaning self.now in
            option_map (λ op. op.0) result ≡ named U name.now }
        ensures within { let U = stated_boxed unit_meaning self.now in
            IfSome result (λ op. op.0 < length U.names) }
    {
        match self.table.operations.find(name) {
            Some(op) => Some(OpId(op as u32)),
            None => None,
        }
    }

    /// The operation whose name has these bytes, as `find` gives it.
    #[tactic(auto, unfolding(crate::specs::Stated::stated_by))]
    pub fn find_bytes(&self, name: &[u8]) -> Option<OpId>
        ensures found { let U = stated_boxed unit_meaning self.now in
            option_map (λ op. op.0) result ≡ named U name.now }
        ensures within { let U = stated_boxed unit_meaning self.now in
            IfSome result (λ op. op.0 < length U.names) }
    {
        match self.table.operations.find_bytes(name) {
            Some(op) => Some(OpId(op as u32)),
            None => None,
        }
    }

    /// How many words an operation takes, 1 or 2.
    #[tactic(auto, unfolding(crate::specs::Stated::stated_by))]
    pub fn arity(&self, op: OpId) -> u8
        requires { op.0 < length (stated_boxed unit_meaning self.now).names }
        ensures value { result ≡ slice_index (stated_boxed unit_meaning self.now).arities op.0 }
        ensures at { slice_get (stated_boxed unit_meaning self.now).arities op.0 ≡ Some result }
    {
        self.table.operations.place(op.0 as usize).unwrap().arity
    }

    /// What an operation is called.
    #[tactic(auto, unfolding(crate::specs::Stated::stated_by))]
    pub fn name(&self, op: OpId) -> &str
        requires { op.0 < length (stated_boxed unit_meaning self.now).names }
        ensures value { let U = stated_boxed unit_meaning self.now in
            result.now ≡ slice_index_or U.names op.0 [] }
        ensures at { slice_get (stated_boxed unit_meaning self.now).names op.0 ≡ Some result.now }
    {
        self.table.operations.name(op.0 as usize).unwrap()
    }

    /// What an operation makes of the words a and b, and 0 where there is no such operation. One
    /// that takes 1 word ignores a.
    #[tactic(auto, unfolding(crate::specs::Stated::stated_by))]
    pub fn apply(&self, op: OpId, a: u32, b: u32) -> u32
        ensures value { result ≡ (stated_boxed unit_meaning self.now).value op.0 a b }
        // What the unit makes of two words is a word, so nothing is cut off.
        ensures meant { result ≡ meant_boxed unit_meaning self.now op.0 a b }
    {
        apply_at(
            self.units.as_slice(),
            self.table.operations.place(op.0 as usize),
            a,
            b,
        )
    }
}
