//! The variables that are live in a block of code, each with its home.

ghost use Rattle.std.specs.Prelude.{◌≡◌, ◌<◌, ◌++◌, OnOk};
ghost use Rattle.tta_lower.specs.LoweringInput.{home_by, reg_of};
ghost use Rattle.tta_lower.specs.Layout.{place_by, vars_of};
ghost use Rattle.tta_lower.specs.Lower.{owner_of};
ghost use Rattle.tta_stages.specs.Words.{kept_text};
ghost use Rattle.tta_origins.specs.Origins.{lives_in, live_text, lives_text, variable_text};

use crate::slots::var_slot;
use crate::words::{push_count, push_home};
use std::alloc::AllocError;
use tta_alloc::Home;
use tta_arch::Machine;
use tta_flow::Live;
use tta_lower::Part;
use tta_program::Program;
use tta_stages::Lowered;

/// What variables are told of: a machine with those of its registers that are home registers, a program,
/// and what it is on the way to its register code.
#[derive(Clone, Copy)]
pub struct Variables<'a> {
    pub m: &'a Machine,
    pub homes: &'a [(u8, u8)],
    pub p: &'a Program,
    pub lowered: &'a Lowered,
}

/// The procedure of a part.
fn owner_of(part: Part) -> u32
    ensures { result ≡ owner_of part }
{
    match part {
        Part::Entry(owner) => owner,
        Part::Steps(b) | Part::Returned(b, _, _) => b.owner,
    }
}

/// How many variables a procedure has, 0 where there is none.
fn vars_of(p: &Program, owner: u32) -> u32
    ensures { result ≡ vars_of p.now owner }
{
    match p.procs.as_slice().get(owner as usize) {
        Some(q) => q.vars,
        None => 0,
    }
}

/// Whether a variable is live in a part.
fn lives_in(live: &Live, part: Part, x: u32) -> bool
    ensures { result ≡ lives_in live.now part x }
{
    match part {
        Part::Entry(owner) => live.before(owner, 0, x),
        Part::Steps(b) => live.before(b.owner, b.first, x) || live.after(b.owner, b.last, x),
        Part::Returned(b, _, _) => live.after(b.owner, b.last, x),
    }
}

/// Puts where a variable is kept that has this home.
fn push_kept(
    out: &mut Vec<u8>,
    of: &Variables<'_>,
    home: Home,
    owner: u32,
    x: u32,
) -> Result<(), AllocError>
    ensures { OnOk result (out.new.items ≡ out.old.items ++ kept_text of.now.m.now of.now.homes.now
        (place_by of.now.p.now (home_by of.now.p.now of.now.lowered.now.homes) owner x
        (reg_of home))) }
{
    match home {
        Home::Reg(k) => push_home(out, of.m, of.homes, k),
        Home::Slot(_) => push_count(out, b"slot.", var_slot(of.p, owner, x)),
    }
}

/// Puts a variable of a procedure and where it is kept.
#[tactic(auto, unfolding(crate::specs::Origins::variable_text))]
fn push_variable(
    out: &mut Vec<u8>,
    of: &Variables<'_>,
    owner: u32,
    x: u32,
) -> Result<(), AllocError>
    requires { x < vars_of of.now.p.now owner }
    ensures { OnOk result (out.new.items ≡ out.old.items
        ++ variable_text of.now.m.now of.now.homes.now of.now.p.now of.now.lowered.now owner x) }
{
    push_count(out, b"live v", u128::from(x))?;
    out.extend_from_slice(b" ")?;
    push_kept(out, of, of.lowered.homes.home(owner, x), owner, x)?;
    out.extend_from_slice(b"\n")
}

/// Puts a variable, if it is live in a part.
fn push_live(out: &mut Vec<u8>, of: &Variables<'_>, part: Part, x: u32) -> Result<(), AllocError>
    requires { x < vars_of of.now.p.now (owner_of part) }
    ensures { OnOk result (out.new.items ≡ out.old.items
        ++ live_text of.now.m.now of.now.homes.now of.now.p.now of.now.lowered.now part x) }
{
    if lives_in(&of.lowered.live, part, x) {
        push_variable(out, of, owner_of(part), x)
    } else {
        Ok(())
    }
}

/// Puts the variables that are live in a part.
pub fn push_lives(out: &mut Vec<u8>, of: &Variables<'_>, part: Part) -> Result<(), AllocError>
    ensures { OnOk result (out.new.items ≡ out.old.items
        ++ lives_text of.now.m.now of.now.homes.now of.now.p.now of.now.lowered.now part) }
{
    let vars = vars_of(of.p, owner_of(part));
    for x in 0..vars {
        push_live(out, of, part, x)?;
    }
    Ok(())
}
