//! The registers of results that are due in more than one cycle.

ghost use Rattle.std.specs.Prelude.{◌≡◌, ◌+◌, ◌-◌, ◌<◌, ◌≤◌, ◌++◌, OnOk};
ghost use Rattle.std.specs.List.{flat_map, range_with_len};
ghost use Rattle.tta_hardware.specs.Registers.{becomes};
ghost use Rattle.tta_hardware.specs.Signals as s;
ghost use Rattle.tta_hardware.specs.Wires as w;
ghost use Rattle.tta_names.specs.Names.{text_of};
ghost use Rattle.tta_rtl.specs.Texts.{due_text, due_word_text};

use crate::coming::{push_coming, push_is_coming};
use crate::on::On;
use crate::registers::start_register;
use crate::results::{push_begins, push_new};
use crate::starts::{OpWord, push_op_word};
use std::alloc::AllocError;
use tta_arch::Machine;
use tta_offers::longest;
use tta_verilog::{push_constant, push_text};

/// Puts whether a result of a unit is due in so many cycles at the next clock.
#[tactic(auto, unfolding(tta_verilog::specs::Expressions::between, tta_verilog::specs::Expressions::choice))]
fn push_due_next(out: &mut Vec<u8>, on: &On<'_>, unit: u8, delay: u8) -> Result<(), AllocError>
    requires later { delay < 255 }
    ensures { OnOk result (out.new.items ≡ out.old.items
        ++ text_of on.now.m.now (becomes on.now.m.now (s.IsDue unit delay))) }
{
    push_text(out, b"(reset)?(")?;
    push_constant(out, 1, 0)?;
    push_text(out, b"):(")?;
    push_begins(out, on, unit, delay + 1)?;
    push_text(out, b")||(")?;
    push_is_coming(out, on, unit, delay + 1)?;
    push_text(out, b")")
}

/// Puts whether a result of a unit is due in so many cycles.
#[tactic(auto, unfolding(crate::specs::Texts::register_of, crate::specs::Texts::register_rest, crate::specs::Texts::due_text))]
fn push_due(
    out: &mut Vec<u8>,
    on: &On<'_>,
    declares: bool,
    unit: u8,
    delay: u8,
) -> Result<(), AllocError>
    requires later { delay < 255 }
    ensures { OnOk result (out.new.items ≡ out.old.items
        ++ due_text on.now.m.now declares unit delay) }
{
    start_register(out, declares, 1, true)?;
    push_op_word(out, on.m, OpWord::IsDue, unit, delay)?;
    if declares {
        return push_text(out, b";\n");
    }
    push_text(out, b" <= ")?;
    push_due_next(out, on, unit, delay)?;
    push_text(out, b";\n")
}

/// Puts the word of a unit that is due in so many cycles at the next clock.
#[tactic(auto, unfolding(crate::specs::Texts::choice_start, tta_verilog::specs::Expressions::choice))]
fn push_due_word_next(out: &mut Vec<u8>, on: &On<'_>, unit: u8, delay: u8) -> Result<(), AllocError>
    requires later { delay < 255 }
    ensures { OnOk result (out.new.items ≡ out.old.items
        ++ text_of on.now.m.now (becomes on.now.m.now (s.Due unit delay))) }
{
    push_new(out, on, unit, delay + 1)?;
    push_coming(out, on, unit, delay + 1)
}

/// Puts the word of a unit that is due in so many cycles.
#[tactic(auto, unfolding(crate::specs::Texts::register_of, crate::specs::Texts::register_rest, crate::specs::Texts::due_word_text))]
fn push_due_word(
    out: &mut Vec<u8>,
    on: &On<'_>,
    declares: bool,
    unit: u8,
    delay: u8,
) -> Result<(), AllocError>
    requires later { delay < 255 }
    ensures { OnOk result (out.new.items ≡ out.old.items
        ++ due_word_text on.now.m.now declares unit delay) }
{
    start_register(out, declares, 32, false)?;
    push_op_word(out, on.m, OpWord::Due, unit, delay)?;
    if declares {
        return push_text(out, b";\n");
    }
    push_text(out, b" <= ")?;
    push_due_word_next(out, on, unit, delay)?;
    push_text(out, b";\n")
}

/// Puts whether results of a unit are due, for so many delays from one on.
fn push_dues(
    out: &mut Vec<u8>,
    on: &On<'_>,
    declares: bool,
    unit: u8,
    delay: u8,
    count: u8,
) -> Result<(), AllocError>
    requires few { delay + count ≤ 255 }
    ensures { OnOk result (out.new.items ≡ out.old.items
        ++ flat_map (due_text on.now.m.now declares unit) (range_with_len delay count)) }
{
    if count == 0 {
        return Ok(());
    }
    push_due(out, on, declares, unit, delay)?;
    push_dues(out, on, declares, unit, delay + 1, count - 1)
}

/// Puts the words of a unit that are due, for so many delays from one on.
fn push_due_words(
    out: &mut Vec<u8>,
    on: &On<'_>,
    declares: bool,
    unit: u8,
    delay: u8,
    count: u8,
) -> Result<(), AllocError>
    requires few { delay + count ≤ 255 }
    ensures { OnOk result (out.new.items ≡ out.old.items
        ++ flat_map (due_word_text on.now.m.now declares unit) (range_with_len delay count)) }
{
    if count == 0 {
        return Ok(());
    }
    push_due_word(out, on, declares, unit, delay)?;
    push_due_words(out, on, declares, unit, delay + 1, count - 1)
}

/// For how many delays a result of a unit is kept before it is in its port.
pub fn later_delays(m: &Machine, unit: u8) -> u8
    ensures count { result ≡ w.longest m.now unit - 1 }
    ensures few { result < 255 }
{
    longest(m, unit).saturating_sub(1)
}

/// Puts whether results of a unit are due, for all delays.
pub fn push_all_dues(
    out: &mut Vec<u8>,
    on: &On<'_>,
    declares: bool,
    unit: u8,
) -> Result<(), AllocError>
    ensures { OnOk result (out.new.items ≡ out.old.items
        ++ flat_map (due_text on.now.m.now declares unit)
        (range_with_len 1 (w.longest on.now.m.now unit - 1))) }
{
    push_dues(out, on, declares, unit, 1, later_delays(on.m, unit))
}

/// Puts the words of a unit that are due, for all delays.
pub fn push_all_due_words(
    out: &mut Vec<u8>,
    on: &On<'_>,
    declares: bool,
    unit: u8,
) -> Result<(), AllocError>
    ensures { OnOk result (out.new.items ≡ out.old.items
        ++ flat_map (due_word_text on.now.m.now declares unit)
        (range_with_len 1 (w.longest on.now.m.now unit - 1))) }
{
    push_due_words(out, on, declares, unit, 1, later_delays(on.m, unit))
}
