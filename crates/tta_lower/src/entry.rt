//! What the entry of a procedure sets.

ghost use Rattle.std.specs.Prelude.{◌≡◌, ◌<◌, ◌+◌, ◌++◌, length, OnOk, [], if◌then◌else◌};
ghost use Rattle.tta_lower.specs.LoweringInput.{first_by};
ghost use Rattle.tta_lower.specs.Plan.{homes_in};
ghost use Rattle.tta_lower.specs.Layout.{vars_of, params_of, sets, sets_from};

use crate::part::Part;
use crate::plan::{Plan, home, is_live, params_in, place_of, slot_of, vars_in};
use std::alloc::AllocError;
use tta_lir::{Place, RSrc, RStep};

/// What sets a variable at an entry; a parameter that has its slot is there already.
pub fn set_variable(
    into: &mut Vec<RStep>,
    plan: &Plan<'_>,
    owner: u32,
    params: u32,
    x: u32,
) -> Result<(), AllocError>
    requires there { owner < length plan.now.p.now.procs }
    requires within { x < vars_of plan.now.p.now owner }
    requires params { params ≡ params_of plan.now.p.now owner }
    ensures { OnOk result (into.new.items ≡ into.old.items
        ++ sets plan.now.p.now (homes_in plan.now) owner x) }
{
    let is_param = x < params;
    let in_slot = home(plan, owner, x).is_none();
    if !(is_param && in_slot) {
        let d = place_of(plan, owner, x);
        let s = if is_param {
            RSrc::At(Place::Frame(slot_of(plan, owner, x)))
        } else {
            RSrc::Word(0)
        };
        into.push(RStep::Copy { d, s })?;
    }
    Ok(())
}

/// Sets a variable that is live at the entry, and leaves any other as it is.
fn set_if(
    into: &mut Vec<RStep>,
    plan: &Plan<'_>,
    owner: u32,
    params: u32,
    x: u32,
    is_live: bool,
) -> Result<(), AllocError>
    requires there { owner < length plan.now.p.now.procs }
    requires within { x < vars_of plan.now.p.now owner }
    requires params { params ≡ params_of plan.now.p.now owner }
    ensures { OnOk result (into.new.items ≡ into.old.items
        ++ (if is_live then sets plan.now.p.now (homes_in plan.now) owner x else [])) }
{
    if is_live {
        set_variable(into, plan, owner, params, x)?;
    }
    Ok(())
}

/// What sets the variables that are live at an entry.
pub fn set_live(into: &mut Vec<RStep>, plan: &Plan<'_>, owner: u32) -> Result<(), AllocError>
    requires there { owner < length plan.now.p.now.procs }
    ensures { OnOk result (into.new.items ≡ into.old.items
        ++ sets_from plan.now.p.now (homes_in plan.now)
        (first_by plan.now.p.now plan.now.live.now owner) owner 0 (vars_of plan.now.p.now owner)) }
{
    let params = params_in(plan.p, owner);
    let vars = vars_in(plan.p, owner);
    for x in 0..vars {
        let live = is_live(plan, Part::Entry(owner), x);
        set_if(into, plan, owner, params, x, live)?;
    }
    Ok(())
}
