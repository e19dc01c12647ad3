//! Where the variables of a program are kept, and which are live.

ghost use Rattle.std.specs.Prelude.{◌≡◌, ◌≢◌, ◌<◌, ◌+◌, true, length};
ghost use Rattle.tta_program.specs.Rules.{is_src};
ghost use Rattle.tta_lower.specs.LoweringInput.{home_by, first_by, after_by};
ghost use Rattle.tta_lower.specs.Tables.{AreFirsts};
ghost use Rattle.tta_lower.specs.Laid.{test_of};
ghost use Rattle.tta_lower.specs.Lower.{owner_of};
ghost use Rattle.tta_lower.specs.Layout.{vars_of, params_of, place, source, var_slot, back_slot, value_slot};

use crate::part::Part;
use tta_alloc::{Home, Homes};
use tta_flow::Live;
use tta_lir::{Place, RSrc};
use tta_program::{Program, Src};

/// A program with what is known of it: its homes, which of its variables are live where, and for
/// each procedure the slot of its first variable, as its frames are laid.
#[derive(Drop)]
pub struct Plan<'a> {
    pub p: &'a Program,
    pub live: &'a Live,
    pub homes: &'a Homes,
    pub firsts: &'a [u32],
    ghost laid: { AreFirsts p.now firsts.now },
}

/// The home register of a variable, if it has one.
pub fn home(plan: &Plan<'_>, owner: u32, x: u32) -> Option<u32>
    requires within { x < vars_of plan.now.p.now owner }
    ensures { result ≡ home_by plan.now.p.now plan.now.homes.now owner x }
{
    match plan.homes.home(owner, x) {
        Home::Reg(k) => Some(k),
        Home::Slot(_) => None,
    }
}

/// Where a variable is kept.
pub fn place_of(plan: &Plan<'_>, owner: u32, x: u32) -> Place
    requires there { owner < length plan.now.p.now.procs }
    requires within { x < vars_of plan.now.p.now owner }
    ensures { result ≡ place plan.now.p.now (home_by plan.now.p.now plan.now.homes.now) owner x }
{
    match home(plan, owner, x) {
        Some(k) => Place::Reg(k),
        None => Place::Frame(slot_of(plan, owner, x)),
    }
}

/// The slot of a variable.
pub fn slot_of(plan: &Plan<'_>, owner: u32, x: u32) -> u32
    requires there { owner < length plan.now.p.now.procs }
    requires within { x < vars_of plan.now.p.now owner }
    ensures { result ≡ var_slot plan.now.p.now owner x }
{
    plan.firsts[owner as usize] + x
}

/// The slot for the return address of a procedure other than main.
pub fn back_slot(plan: &Plan<'_>, owner: u32) -> u32
    requires there { owner < length plan.now.p.now.procs }
    requires other { owner ≢ plan.now.p.now.main }
    ensures { result ≡ back_slot plan.now.p.now owner }
{
    plan.firsts[owner as usize] - 2
}

/// The slot for the value that a procedure other than main returns.
pub fn value_slot(plan: &Plan<'_>, owner: u32) -> u32
    requires there { owner < length plan.now.p.now.procs }
    requires other { owner ≢ plan.now.p.now.main }
    ensures { result ≡ value_slot plan.now.p.now owner }
{
    plan.firsts[owner as usize] - 1
}

/// What an operand becomes.
pub fn source_of(plan: &Plan<'_>, owner: u32, s: Src) -> RSrc
    requires there { owner < length plan.now.p.now.procs }
    requires within { is_src (vars_of plan.now.p.now owner) s ≡ true }
    ensures { result ≡ source plan.now.p.now (home_by plan.now.p.now plan.now.homes.now) owner s }
{
    match s {
        Src::Var(x) => RSrc::At(place_of(plan, owner, x)),
        Src::Word(w) => RSrc::Word(w),
    }
}

/// Whether a variable is live at the entry of a procedure.
pub fn is_live_first(p: &Program, live: &Live, owner: u32, x: u32) -> bool
    requires within { x < vars_of p.now owner }
    ensures { result ≡ first_by p.now live.now owner x }
{
    live.before(owner, 0, x)
}

/// Whether a variable is live where a part ends; at an entry, where it begins.
pub fn is_live(plan: &Plan<'_>, part: Part, x: u32) -> bool
    requires within { x < vars_of plan.now.p.now (owner_of part) }
    ensures { result ≡ test_of (first_by plan.now.p.now plan.now.live.now)
        (after_by plan.now.p.now plan.now.live.now) part x }
{
    match part {
        Part::Entry(owner) => is_live_first(plan.p, plan.live, owner, x),
        Part::Steps(b) | Part::Returned(b, _, _) => plan.live.after(b.owner, b.last, x),
    }
}

/// How many variables a procedure has.
#[tactic(auto, using(crate::proofs::Firsts::vars_at))]
pub fn vars_in(p: &Program, owner: u32) -> u32
    requires there { owner < length p.now.procs }
    ensures { result ≡ vars_of p.now owner }
{
    p.procs.as_slice()[owner as usize].vars
}

/// How many parameters a procedure has.
#[tactic(auto, using(crate::proofs::Firsts::params_at))]
pub fn params_in(p: &Program, owner: u32) -> u32
    requires there { owner < length p.now.procs }
    ensures { result ≡ params_of p.now owner }
{
    p.procs.as_slice()[owner as usize].params
}

/// The procedure that a run begins with.
pub fn main_of(p: &Program) -> u32
    ensures { result ≡ p.now.main }
{
    p.main
}

/// How many procedures a program has.
pub fn proc_count(p: &Program) -> usize
    ensures { result ≡ length p.now.procs }
{
    p.procs.as_slice().len()
}
