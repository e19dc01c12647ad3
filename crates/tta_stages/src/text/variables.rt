//! The homes and intervals of the variables.

ghost use Rattle.std.specs.Prelude.{◌≡◌, ◌≤◌, ◌<◌, ◌^◌, ◌++◌, OnOk};
ghost use Rattle.std.specs.List.{flat_map};
ghost use Rattle.tta_arch.specs.Fields.{numbers};
ghost use Rattle.tta_stages.specs.ProgramText.{own_slots, home_or_slot, position_text};
ghost use Rattle.tta_stages.specs.ProgramText.{from_to_text, interval_text, variable_text};
ghost use Rattle.tta_stages.specs.ProgramText.{proc_variables_text, variables_from};

use crate::lowered::Lowered;
use crate::text::program::line_at;
use crate::text::steps::On;
use crate::text::words::{push_count, push_home, push_proc};
use std::alloc::AllocError;
use tta_alloc::{Home, Interval};
use tta_program::Program;

/// The slots of a procedure that are not its variables'.
fn own_slots(main: u32, owner: usize) -> u128
    ensures value { result ≡ own_slots main owner }
    ensures few { result ≤ 2 }
{
    if owner == main as usize { 0 } else { 2 }
}

/// Puts the home of a variable, whose slot this would be.
fn push_home_or_slot(
    out: &mut Vec<u8>,
    on: &On<'_>,
    home: Home,
    slot: u128,
) -> Result<(), AllocError>
    ensures { OnOk result (out.new.items ≡ out.old.items
        ++ home_or_slot on.now.m.now on.now.homes.now home slot) }
{
    match home {
        Home::Reg(k) => push_home(out, on.m, on.homes, k),
        Home::Slot(_) => push_count(out, b"slot.", slot),
    }
}

/// Puts a position of an interval: the entry of the procedure, or the line of a step.
fn push_position(out: &mut Vec<u8>, p: &Program, owner: u32, at: u32) -> Result<(), AllocError>
    ensures { OnOk result (out.new.items ≡ out.old.items ++ position_text p.now owner at) }
{
    if at == 0 {
        out.extend_from_slice(b"entry")
    } else {
        push_count(out, b"line ", u128::from(line_at(p, owner, at - 1)))
    }
}

/// Puts from where to where an interval goes.
#[tactic(auto, unfolding(crate::specs::ProgramText::from_to_text))]
fn push_from_to(
    out: &mut Vec<u8>,
    p: &Program,
    owner: u32,
    interval: Interval,
) -> Result<(), AllocError>
    ensures { OnOk result (out.new.items ≡ out.old.items ++ from_to_text p.now owner interval) }
{
    out.extend_from_slice(b" from ")?;
    push_position(out, p, owner, interval.start)?;
    out.extend_from_slice(b" to ")?;
    push_position(out, p, owner, interval.end)
}

/// Puts the interval of a variable, if there is one.
fn push_interval(
    out: &mut Vec<u8>,
    p: &Program,
    owner: u32,
    interval: Option<Interval>,
) -> Result<(), AllocError>
    ensures { OnOk result (out.new.items ≡ out.old.items ++ interval_text p.now owner interval) }
{
    match interval {
        Some(interval) => push_from_to(out, p, owner, interval),
        None => out.extend_from_slice(b" no interval"),
    }
}

/// What variables are told of: a program, and what it is on the way to its register code.
#[derive(Drop)]
pub struct Variables<'a> {
    pub p: &'a Program,
    pub lowered: &'a Lowered,
}

/// Puts a variable of a procedure, its home and its interval.
#[tactic(auto, unfolding(crate::specs::ProgramText::variable_text))]
fn push_variable(
    out: &mut Vec<u8>,
    on: &On<'_>,
    of: &Variables<'_>,
    owner: u32,
    first: u128,
    x: u32,
) -> Result<(), AllocError>
    requires { first < 2 ^ 100 }
    ensures { OnOk result (out.new.items ≡ out.old.items
        ++ variable_text on.now.m.now on.now.homes.now of.now.p.now of.now.lowered.now
        owner first x) }
{
    let lowered = of.lowered;
    push_count(out, b" v", u128::from(x))?;
    out.extend_from_slice(b" ")?;
    push_home_or_slot(out, on, lowered.homes.home(owner, x), first + u128::from(x))?;
    push_interval(out, of.p, owner, lowered.intervals.get(owner, x))?;
    out.extend_from_slice(b"\n")
}

/// Puts so many variables of a procedure.
fn push_each(
    out: &mut Vec<u8>,
    on: &On<'_>,
    of: &Variables<'_>,
    owner: u32,
    first: u128,
    vars: u32,
) -> Result<(), AllocError>
    requires { first < 2 ^ 100 }
    ensures { OnOk result (out.new.items ≡ out.old.items ++ flat_map
        (variable_text on.now.m.now on.now.homes.now of.now.p.now of.now.lowered.now owner first)
        (numbers vars)) }
{
    for x in 0..vars {
        push_variable(out, on, of, owner, first, x)?;
    }
    Ok(())
}

/// Puts the heading of the variables of a procedure, and these.
#[tactic(auto, unfolding(crate::specs::ProgramText::proc_variables_text))]
fn push_proc_variables(
    out: &mut Vec<u8>,
    on: &On<'_>,
    of: &Variables<'_>,
    owner: u32,
    vars: u32,
    first: u128,
) -> Result<(), AllocError>
    requires { first < 2 ^ 100 }
    ensures { OnOk result (out.new.items ≡ out.old.items
        ++ proc_variables_text on.now.m.now on.now.homes.now of.now.p.now of.now.lowered.now
        owner vars first) }
{
    let p = of.p;
    out.extend_from_slice(b"variables proc ")?;
    push_proc(out, p.main, owner)?;
    out.extend_from_slice(b"\n")?;
    push_each(out, on, of, owner, first, vars)
}

/// Puts the variables of each procedure.
pub fn push_variables(
    out: &mut Vec<u8>,
    on: &On<'_>,
    p: &Program,
    lowered: &Lowered,
) -> Result<(), AllocError>
    ensures { OnOk result (out.new.items ≡ out.old.items
        ++ variables_from on.now.m.now on.now.homes.now p.now lowered.now 0 0 p.now.procs) }
{
    let of = Variables { p, lowered };
    let mut next: u128 = 0;
    for (owner, q) in p.procs.as_slice().iter().enumerate() {
        let first = next + own_slots(p.main, owner);
        push_proc_variables(out, on, &of, owner as u32, q.vars, first)?;
        next = first + u128::from(q.vars);
    }
    Ok(())
}
