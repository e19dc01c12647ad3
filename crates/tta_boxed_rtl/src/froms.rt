//! The registers that say whose a result is that is due.

ghost use Rattle.std.specs.Prelude.{◌≡◌, ◌+◌, ◌<◌, ◌≤◌, ◌++◌, OnOk};
ghost use Rattle.std.specs.List.{flat_map, range_with_len};
ghost use Rattle.tta_boxed_rtl.specs.Left.{lefts, told_by};
ghost use Rattle.tta_boxed_rtl.specs.Texts as x;

use crate::at::At;
use crate::left::Left;
use crate::picks::push_from_becomes;
use std::alloc::AllocError;
use tta_names::push_from_name;
use tta_rtl::start_register;
use tta_verilog::push_text;

/// Puts such a register: its name, and else what it becomes.
#[tactic(auto, unfolding(tta_rtl::specs::Texts::register_rest, crate::specs::Texts::from_line))]
fn push_from(
    out: &mut Vec<u8>,
    at: &At<'_>,
    declares: bool,
    l: Left,
    delay: u8,
) -> Result<(), AllocError>
    requires later { delay < 255 }
    ensures { let M = at.now.on.now.m.now in let L = told_by at.now.leaves.now in
        OnOk result (out.new.items ≡ out.old.items
        ++ x.from_line M L declares l.unit l.op l.o.latency delay) }
{
    start_register(out, declares, 1, true)?;
    push_from_name(out, at.on.m, l.unit, l.op, delay)?;
    if declares {
        return push_text(out, b";\n");
    }
    push_text(out, b" <= ")?;
    push_from_becomes(out, at, l, delay)?;
    push_text(out, b";\n")
}

/// Puts those of an operation, for so many delays from one on.
fn push_delays(
    out: &mut Vec<u8>,
    at: &At<'_>,
    declares: bool,
    l: Left,
    delay: u8,
    count: u8,
) -> Result<(), AllocError>
    requires few { delay + count ≤ 255 }
    ensures { let M = at.now.on.now.m.now in let L = told_by at.now.leaves.now in
        OnOk result (out.new.items ≡ out.old.items
        ++ flat_map (x.from_line M L declares l.unit l.op l.o.latency) (range_with_len delay count)) }
{
    if count == 0 {
        return Ok(());
    }
    push_from(out, at, declares, l, delay)?;
    push_delays(out, at, declares, l, delay + 1, count - 1)
}

/// Puts those of an operation.
#[tactic(auto, unfolding(crate::specs::Texts::left_lines))]
fn push_left(out: &mut Vec<u8>, at: &At<'_>, declares: bool, l: Left) -> Result<(), AllocError>
    ensures { let M = at.now.on.now.m.now in let L = told_by at.now.leaves.now in
        OnOk result (out.new.items ≡ out.old.items
        ++ x.left_lines M L declares (l.unit, (l.op, l.o))) }
{
    push_delays(out, at, declares, l, 1, l.o.latency.saturating_sub(1))
}

/// Puts the registers that tell of these operations whose result is due, for each delay.
pub fn push_froms(
    out: &mut Vec<u8>,
    at: &At<'_>,
    declares: bool,
    left: &[Left],
) -> Result<(), AllocError>
    ensures { let M = at.now.on.now.m.now in let L = told_by at.now.leaves.now in
        OnOk result (out.new.items ≡ out.old.items
        ++ flat_map (x.left_lines M L declares) (lefts left.now)) }
{
    match left {
        [] => Ok(()),
        [l, rest @ ..] => {
            push_left(out, at, declares, *l)?;
            push_froms(out, at, declares, rest)
        }
    }
}
