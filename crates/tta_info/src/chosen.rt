//! What `build` chooses on a machine, or the first rule that the machine breaks.

ghost use Rattle.std.specs.Prelude.{◌≡◌, ◌<◌, ◌≤◌, ◌++◌, ℕ, [], length, OnOk};
ghost use Rattle.std.specs.List.{flat_map};
ghost use Rattle.tta_arch.specs.Joins.{has_bit};
ghost use Rattle.tta_connect.specs.Coverage.{IsChoice, is_usable_at};
ghost use Rattle.tta_info.specs.Chosen.{rule_words, refused_text, guard_text, home_text, homes_text};
ghost use Rattle.tta_info.specs.Lines.{named_if};
ghost use Rattle.tta_info.specs.Chosen.{usable_names, usable_text, choice_text, chosen_text};

use crate::lines::{end_line, push_count, push_named_if, start_line};
use std::alloc::AllocError;
use tta_arch::{Machine, Unit};
use tta_connect::Choice;
use tta_disasm::{file_name, push_place};

/// What a rule of coverage asks.
#[tactic(auto, unfolding(crate::specs::Chosen::rule_words))]
fn rule_words(rule: u8) -> &'static [u8]
    ensures { result.now ≡ rule_words rule }
{
    match rule {
        1 => b"no file of 32 bits with three registers or more is joined to itself",
        2 => b"not every word of 32 bits reaches the hub",
        3 => {
            b"the hub is not joined to gcu.t, or no register of one bit can guard moves to it and within the hub"
        }
        4 => b"gcu.ra is not joined to the hub",
        _ => b"no usable units offer both ldf and stf",
    }
}

/// Puts the first rule that a machine breaks.
#[tactic(auto, unfolding(crate::specs::Chosen::refused_text))]
pub fn push_refused(out: &mut Vec<u8>, rule: u8) -> Result<(), AllocError>
    ensures { OnOk result (out.new.items ≡ out.old.items ++ refused_text rule) }
{
    push_count(out, b"rule ", u64::from(rule))?;
    start_line(out, b" fails: ", rule_words(rule), b"\n")
}

/// Puts the register that keeps conditions.
#[tactic(auto, unfolding(crate::specs::Chosen::guard_text))]
fn push_guard(out: &mut Vec<u8>, m: &Machine, file: u8, index: u8) -> Result<(), AllocError>
    ensures { OnOk result (out.new.items ≡ out.old.items ++ guard_text m.now (file, index)) }
{
    out.extend_from_slice(b"guard ")?;
    push_place(out, file_name(m, file), index)?;
    end_line(out)
}

/// Puts a register with a blank before it.
#[tactic(auto, unfolding(crate::specs::Chosen::home_text))]
fn push_home(out: &mut Vec<u8>, m: &Machine, home: (u8, u8)) -> Result<(), AllocError>
    ensures { OnOk result (out.new.items ≡ out.old.items ++ home_text m.now home) }
{
    out.extend_from_slice(b" ")?;
    push_place(out, file_name(m, home.0), home.1)
}

/// Puts registers.
fn push_each_home(out: &mut Vec<u8>, m: &Machine, homes: &[(u8, u8)]) -> Result<(), AllocError>
    ensures { OnOk result (out.new.items ≡ out.old.items ++ flat_map (home_text m.now) homes.now) }
{
    for home in homes {
        push_home(out, m, *home)?;
    }
    Ok(())
}

/// Puts the registers in which variables live.
#[tactic(auto, unfolding(crate::specs::Chosen::homes_text))]
fn push_homes(out: &mut Vec<u8>, m: &Machine, homes: &[(u8, u8)]) -> Result<(), AllocError>
    ensures { OnOk result (out.new.items ≡ out.old.items ++ homes_text m.now homes.now) }
{
    out.extend_from_slice(b"homes")?;
    push_each_home(out, m, homes)?;
    end_line(out)
}

/// Whether a set of units has this one.
fn has_unit(units: u32, unit: usize) -> bool
    requires { unit < 32 }
    ensures { result ≡ has_bit units unit }
{
    (units >> unit) % 2 == 1
}

/// Puts the name of a unit, where it is usable.
fn push_usable_name(
    out: &mut Vec<u8>,
    m: &Machine,
    hub: u8,
    usable: u32,
    unit: usize,
    q: &Unit,
) -> Result<(), AllocError>
    requires few { unit < 32 }
    requires usable { (unit : ℕ) → has_bit usable unit ≡ is_usable_at m.now hub unit }
    ensures { OnOk result (out.new.items
        ≡ out.old.items ++ named_if (is_usable_at m.now hub unit) q.now.name []) }
{
    push_named_if(out, has_unit(usable, unit), q.name.as_bytes(), b"")
}

/// Puts the usable ones of some units.
fn push_usable_names(
    out: &mut Vec<u8>,
    m: &Machine,
    hub: u8,
    usable: u32,
    units: &[Unit],
) -> Result<(), AllocError>
    requires few { length units.now ≤ 32 }
    requires usable { (unit : ℕ) → has_bit usable unit ≡ is_usable_at m.now hub unit }
    ensures { OnOk result (out.new.items ≡ out.old.items ++ usable_names m.now hub units.now) }
{
    for (unit, q) in units.iter().enumerate() {
        push_usable_name(out, m, hub, usable, unit, q)?;
    }
    Ok(())
}

/// Puts the usable units.
#[tactic(auto, unfolding(crate::specs::Chosen::usable_text))]
fn push_usable(out: &mut Vec<u8>, m: &Machine, hub: u8, usable: u32) -> Result<(), AllocError>
    requires { (unit : ℕ) → has_bit usable unit ≡ is_usable_at m.now hub unit }
    ensures { OnOk result (out.new.items ≡ out.old.items ++ usable_text m.now hub) }
{
    out.extend_from_slice(b"units")?;
    push_usable_names(out, m, hub, usable, m.units.as_slice())?;
    end_line(out)
}

/// Puts what is chosen on a machine.
#[tactic(auto, unfolding(crate::specs::Chosen::choice_text))]
pub fn push_choice(out: &mut Vec<u8>, m: &Machine, c: &Choice) -> Result<(), AllocError>
    requires { IsChoice m.now c.now }
    ensures { OnOk result (out.new.items ≡ out.old.items ++ chosen_text m.now) }
{
    start_line(out, b"hub ", file_name(m, c.hub), b"\n")?;
    push_guard(out, m, c.guard_file, c.guard_index)?;
    push_homes(out, m, c.homes.as_slice())?;
    push_usable(out, m, c.hub, c.usable)
}
