//! What an instruction does to a place and to a unit.

ghost use Rattle.std.specs.Prelude.{◌≡◌};
ghost use Rattle.std.specs.Option.{option_map};
ghost use Rattle.std.specs.List.{filter_map};
ghost use Rattle.std.specs.Prelude.{map};
ghost use Rattle.tta_arch.specs.Effects.{op_at, has_result, target_of};
ghost use Rattle.tta_code.specs.Cycle.{effect_of, long_effects, effects_of};
ghost use Rattle.tta_check.specs.Facts.{starts_on};
ghost use Rattle.tta_check.specs.Controls.{takes_control, controller};
ghost use Rattle.tta_check.specs.States.{place_of};
ghost use Rattle.tta_check.specs.Steps.{write_into, start_on, as_write, as_start};

use crate::location::{Location, same_location};
use crate::start::Start;
use crate::write::{Origin, Write, goes_into, origin_in};
use tta_arch::{Dest, Machine, Op, UnitOp};
use tta_code::{Instruction, Long, Move};
use tta_list::entry_at;

/// The write into a location that some moves make.
fn move_into(m: &Machine, back: u32, moves: &[Option<Move>], location: Location) -> Option<Write>
    ensures { option_map as_write result ≡ write_into m.now back (place_of location)
        (map effect_of (filter_map (λ o. o) moves.now)) }
{
    for slot in moves {
        if let Some(v) = slot {
            if goes_into(v.dst, location) {
                return Some(Write {
                    guard: v.guard,
                    origin: origin_in(m, back, v.src, v.dst),
                });
            }
        }
    }
    None
}

/// The write into a location that a long immediate makes.
fn long_into(m: &Machine, back: u32, long: Option<Long>, location: Location) -> Option<Write>
    ensures { option_map as_write result ≡ write_into m.now back (place_of location)
        (long_effects m.now long) }
{
    let Some(l) = long else {
        return None;
    };
    match entry_at(m.templates.as_slice(), l.template) {
        None => None,
        Some(t) => {
            let into = Location::Imm {
                unit: t.imm,
                index: t.reg,
            };
            if same_location(into, location) {
                Some(Write {
                    guard: None,
                    origin: Origin::Fixed(Some(l.value)),
                })
            } else {
                None
            }
        }
    }
}

/// The write into a location that an instruction makes.
#[tactic(auto, using(crate::proofs::Instructions::write_both))]
pub fn write_into(m: &Machine, back: u32, i: &Instruction, location: Location) -> Option<Write>
    ensures { option_map as_write result ≡ write_into m.now back (place_of location)
        (effects_of m.now i.now) }
{
    match move_into(m, back, i.moves.as_slice(), location) {
        Some(w) => Some(w),
        None => long_into(m, back, i.long, location),
    }
}

/// The latency of the operation with a result that a destination starts on a unit.
pub fn starts_on(m: &Machine, unit: u8, dst: Dest) -> Option<u8>
    ensures { result ≡ starts_on m.now unit (target_of dst) }
{
    let Dest::Trigger { unit: u, op } = dst else {
        return None;
    };
    if u != unit {
        return None;
    }
    match op_at(m, u, op) {
        Some(o) if o.op.has_result() => Some(o.latency),
        _ => None,
    }
}

/// An operation that a unit offers.
pub fn op_at(m: &Machine, unit: u8, op: u8) -> Option<UnitOp>
    ensures { result ≡ op_at m.now unit op }
{
    match entry_at(m.units.as_slice(), unit) {
        None => None,
        Some(u) => u.ops.as_slice().get(usize::from(op)).copied(),
    }
}

/// The start of a result on a unit that some moves make.
fn move_starts(m: &Machine, unit: u8, moves: &[Option<Move>]) -> Option<Start>
    ensures { option_map as_start result ≡ start_on m.now unit
        (map effect_of (filter_map (λ o. o) moves.now)) }
{
    for slot in moves {
        if let Some(v) = slot {
            if let Some(latency) = starts_on(m, unit, v.dst) {
                return Some(Start {
                    guard: v.guard,
                    latency,
                });
            }
        }
    }
    None
}

/// The start of a result on a unit that an instruction makes.
#[tactic(auto, using(crate::proofs::Instructions::start_moves))]
pub fn start_on(m: &Machine, unit: u8, i: &Instruction) -> Option<Start>
    ensures { option_map as_start result ≡ start_on m.now unit (effects_of m.now i.now) }
{
    move_starts(m, unit, i.moves.as_slice())
}

/// The control move of some moves.
pub fn controller(moves: &[Option<Move>]) -> Option<Move>
    ensures { option_map effect_of result
        ≡ controller (map effect_of (filter_map (λ o. o) moves.now)) }
{
    for slot in moves {
        if let Some(v) = slot {
            if is_control(v.dst) {
                return Some(*v);
            }
        }
    }
    None
}

/// Whether a destination is the control's.
fn is_control(dst: Dest) -> bool
    ensures { result ≡ takes_control (target_of dst) }
{
    matches!(dst, Dest::Jump | Dest::Call | Dest::Halt)
}
