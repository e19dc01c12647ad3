//! The third rule: the register that keeps conditions.

ghost use Rattle.std.specs.Prelude.{◌≡◌, true};
ghost use Rattle.tta_connect.specs.Coverage.{has_senses, can_guard, guard_in, guard_register};

use crate::ends::{from, into, some_bus};
use crate::target_machine::TargetMachine;
use tta_arch::{Dest, File, GuardRef};

/// Whether a move from the hub can have this register as its guard, plain and inverted.
fn has_senses(on: &TargetMachine<'_>, hub: u8, file: u8, index: u8, dst: Dest) -> bool
    ensures { result ≡ has_senses on.now.machine.now hub file index dst }
{
    let plain = GuardRef {
        file,
        index,
        inverted: false,
    };
    let inverted = GuardRef {
        file,
        index,
        inverted: true,
    };
    some_bus(on, from(hub), dst, Some(plain)) && some_bus(on, from(hub), dst, Some(inverted))
}

/// Whether a register can keep a condition, for a jump and for a move within the hub.
fn can_guard(on: &TargetMachine<'_>, hub: u8, file: u8, index: u8) -> bool
    ensures { result ≡ can_guard on.now.machine.now hub file index }
{
    some_bus(on, from(hub), Dest::Reg { file, index }, None)
        && has_senses(on, hub, file, index, Dest::Jump)
        && has_senses(on, hub, file, index, into(hub))
}

/// The first register of a file that can keep a condition.
#[tactic(auto, using(crate::proofs::Firsts::range_next))]
fn guard_in(on: &TargetMachine<'_>, hub: u8, file: u8, f: &File) -> Option<(u8, u8)>
    ensures { result ≡ guard_in on.now.machine.now hub file f.now }
{
    if f.width != 1 {
        return None;
    }
    for index in 0..f.size {
        if can_guard(on, hub, file, index) {
            return Some((file, index));
        }
    }
    None
}

/// The register that keeps conditions.
pub fn guard_register(on: &TargetMachine<'_>, hub: u8) -> Option<(u8, u8)>
    ensures { result ≡ guard_register on.now.machine.now hub }
{
    if !some_bus(on, from(hub), Dest::Jump, None) {
        return None;
    }
    let m = on.machine;
    for (file, f) in m.files.as_slice().iter().enumerate() {
        if let Some(guard) = guard_in(on, hub, file as u8, f) {
            return Some(guard);
        }
    }
    None
}
