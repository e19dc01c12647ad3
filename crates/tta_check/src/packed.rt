//! A place with what may hold of it, in eleven bytes. Code of a large machine has an abstract state
//! of some hundred places for each of its addresses, so what it keeps of a place is what `check`
//! takes of memory.

ghost use Rattle.std.specs.Prelude.{◌≡◌, ◌==◌, ◌<◌, ◌/◌, ◌%◌};
ghost use Rattle.tta_check.specs.Packed.{kind_of, owner_of, index_of, location_by};
ghost use Rattle.tta_check.specs.Packed.{shape_of, first_of, second_of, known_or_zero, values_by};

use crate::location::Location;
use crate::state::Cell;
use crate::values::ValueSet;
use std::marker::Model;

/// Where the parts of a tag begin: the shape of the words comes first, then whether the place may be
/// unset, then its kind.
const UNSET: u8 = 8;

const KIND: u8 = 16;

/// A place with what may hold of it. Contracts see what it keeps.
#[derive(Drop)]
pub struct Packed {
    tag: u8,
    owner: u8,
    index: u8,
    one: [u8; 4],
    two: [u8; 4],
}

impl Model for Packed {
    ghost use Rattle.std.specs.Prelude.{◌==◌, ◌/◌, ◌%◌};
    ghost use Rattle.tta_check.specs.declared.state.Kept.{Kept};
    ghost use Rattle.tta_check.specs.Packed.{kept_by};

    ghost Value = { Kept };

    ghost view = { λ p.
        kept_by (p.tag / 16) (p.tag / 8 % 2 == 1) (p.tag % 8) p.owner p.index p.one p.two };
}

/// The kind of a location, as a number.
fn kind_of(location: Location) -> u8
    ensures value { result ≡ kind_of location }
    ensures few { result < 4 }
{
    match location {
        Location::Reg { .. } => 0,
        Location::Imm { .. } => 1,
        Location::Operand { .. } => 2,
        Location::Ra => 3,
    }
}

/// The file or unit that a location belongs to.
fn owner_of(location: Location) -> u8
    ensures { result ≡ owner_of location }
{
    match location {
        Location::Reg { file, .. } => file,
        Location::Imm { unit, .. } | Location::Operand { unit } => unit,
        Location::Ra => 0,
    }
}

/// The number of a location in its file or unit.
fn index_of(location: Location) -> u8
    ensures { result ≡ index_of location }
{
    match location {
        Location::Reg { index, .. } | Location::Imm { index, .. } => index,
        Location::Operand { .. } | Location::Ra => 0,
    }
}

/// The location of these numbers.
fn location_by(kind: u8, owner: u8, index: u8) -> Location
    ensures { result ≡ location_by kind owner index }
{
    if kind == 0 {
        Location::Reg { file: owner, index }
    } else if kind == 1 {
        Location::Imm { unit: owner, index }
    } else if kind == 2 {
        Location::Operand { unit: owner }
    } else {
        Location::Ra
    }
}

/// How many words there are and which of them are known, as a number.
fn shape_of(values: ValueSet) -> u8
    ensures value { result ≡ shape_of values }
    ensures few { result < 7 }
{
    match values {
        ValueSet::Nothing => 0,
        ValueSet::One(None) => 1,
        ValueSet::One(Some(_)) => 2,
        ValueSet::Two(None, None) => 3,
        ValueSet::Two(None, Some(_)) => 4,
        ValueSet::Two(Some(_), None) => 5,
        ValueSet::Two(Some(_), Some(_)) => 6,
    }
}

/// A word, or 0 where it is not known.
fn known_or_zero(word: Option<u32>) -> u32
    ensures { result ≡ known_or_zero word }
{
    match word {
        None => 0,
        Some(w) => w,
    }
}

/// The first word, 0 where there is none or it is not known.
fn first_of(values: ValueSet) -> u32
    ensures { result ≡ first_of values }
{
    match values {
        ValueSet::Nothing => 0,
        ValueSet::One(a) | ValueSet::Two(a, _) => known_or_zero(a),
    }
}

/// The second word, 0 where there is none or it is not known.
fn second_of(values: ValueSet) -> u32
    ensures { result ≡ second_of values }
{
    match values {
        ValueSet::Nothing | ValueSet::One(_) => 0,
        ValueSet::Two(_, b) => known_or_zero(b),
    }
}

/// The words of these numbers.
fn values_by(shape: u8, a: u32, b: u32) -> ValueSet
    ensures { result ≡ values_by shape a b }
{
    if shape == 0 {
        ValueSet::Nothing
    } else if shape == 1 {
        ValueSet::One(None)
    } else if shape == 2 {
        ValueSet::One(Some(a))
    } else if shape == 3 {
        ValueSet::Two(None, None)
    } else if shape == 4 {
        ValueSet::Two(None, Some(b))
    } else if shape == 5 {
        ValueSet::Two(Some(a), None)
    } else {
        ValueSet::Two(Some(a), Some(b))
    }
}

/// The tag of a place with what may hold of it.
fn tag_of(at: Location, cell: Cell) -> u8
    ensures kind { result / 16 ≡ kind_of at }
    ensures unset { (result / 8 % 2 == 1) ≡ cell.unset }
    ensures shape { result % 8 ≡ shape_of cell.values }
{
    let unset = if cell.unset { UNSET } else { 0 };
    kind_of(at) * KIND + unset + shape_of(cell.values)
}

impl Packed {
    /// A place with what may hold of it.
    #[tactic(auto, using(crate::proofs::Packing::unpacked))]
    pub fn of(at: Location, cell: Cell) -> Packed
        ensures { result ≡ record { at = at; cell = cell } }
    {
        Packed {
            tag: tag_of(at, cell),
            owner: owner_of(at),
            index: index_of(at),
            one: first_of(cell.values).to_le_bytes(),
            two: second_of(cell.values).to_le_bytes(),
        }
    }

    /// The place.
    pub fn location(&self) -> Location
        ensures { result ≡ self.now.at }
    {
        location_by(self.tag / KIND, self.owner, self.index)
    }

    /// What may hold of it.
    pub fn cell(&self) -> Cell
        ensures { result ≡ self.now.cell }
    {
        let one = u32::from_le_bytes(self.one);
        let two = u32::from_le_bytes(self.two);
        Cell {
            unset: self.tag / UNSET % 2 == 1,
            values: values_by(self.tag % UNSET, one, two),
        }
    }
}
