//! The value of an operation.

ghost use Rattle.std.specs.Prelude.{◌≡◌, if◌then◌else◌, nat_eq};
ghost use Rattle.tta_ops.specs.Stated.{meant_at, value_at};

use crate::place::Place;
use crate::unit::OpUnit;

/// The first word that an operation sees, which is 0 where it takes one word alone.
fn first_word(arity: u8, a: u32) -> u32
    ensures { result ≡ (if nat_eq arity 1 then 0 else a) }
{
    if arity == 1 { 0 } else { a }
}

/// What the operation at a place makes of two words, and 0 where there is no place.
pub fn apply_at<U: OpUnit>(units: &[U], place: Option<Place>, a: u32, b: u32) -> u32
    ensures value { result ≡ value_at U.unit_meaning units.now place a b }
    ensures meant { result ≡ meant_at U.unit_meaning units.now place a b }
{
    let Some(place) = place else {
        return 0;
    };
    let Some(unit) = units.get(place.unit) else {
        return 0;
    };
    unit.apply(place.index, first_word(place.arity, a), b)
}
