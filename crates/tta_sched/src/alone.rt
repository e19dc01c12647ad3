//! An item alone: what carries it.

ghost use Rattle.std.specs.Prelude.{◌≡◌, ◌<◌, ◌≤◌, ℕ, true, false, length, slice_get};
ghost use Rattle.std.specs.Option.{option_map_or};
ghost use Rattle.std.specs.List.{list_any};
ghost use Rattle.tta_moves.specs.Slots.{carries, fills, has_slot};
ghost use Rattle.tta_sched.specs.Serial.{IsLeastAlone};

use tta_arch::Template;
use tta_connect::TargetMachine;
use tta_moves::{Item, Slot, carried};

/// Whether a template writes an immediate register.
fn fills(t: &Template, imm: u8, reg: u8) -> bool
    ensures { result ≡ fills imm reg t.now }
{
    t.imm == imm && t.reg == reg
}

/// The first template that writes an immediate register.
fn first_template(templates: &[Template], imm: u8, reg: u8) -> u8
    requires few { length templates.now ≤ 8 }
    requires some { list_any (fills imm reg) templates.now ≡ true }
    ensures there { option_map_or (fills imm reg) (slice_get templates.now result) false ≡ true }
    ensures least { (k : ℕ) → k < result
        → option_map_or (fills imm reg) (slice_get templates.now k) false ≡ false }
{
    for (t, template) in templates.iter().enumerate() {
        if fills(template, imm, reg) {
            return t as u8;
        }
    }
    unreachable!()
}

/// The least slot that carries an item that is alone in its cycle.
pub fn slot_alone(on: &TargetMachine<'_>, x: Item) -> Slot
    requires slot { has_slot on.now.machine.now x ≡ true }
    ensures carried { carries on.now.machine.now result x ≡ true }
    ensures least { IsLeastAlone on.now.machine.now x result }
{
    let m = on.machine;
    match x {
        Item::Move { guard, src, dst } => match on.net.bus_for(m, &carried(m, src), &dst, &guard) {
            Some(bus) => Slot::Bus(bus),
            None => unreachable!(),
        },
        Item::Long { imm, reg, .. } => Slot::Template(first_template(
            m.templates.as_slice(),
            imm,
            reg,
        )),
    }
}
