//! The slots of the frame space.

ghost use Rattle.std.specs.Prelude.{◌≡◌, ◌≤◌, ◌<◌, ◌^◌};
ghost use Rattle.tta_lower.specs.Layout.{base, own, var_slot};

use tta_program::Program;

/// How many slots a procedure has that are not its variables'.
fn own(p: &Program, owner: usize) -> u128
    ensures value { result ≡ own p.now owner }
    ensures few { result ≤ 2 }
{
    if owner == p.main as usize { 0 } else { 2 }
}

/// The first slot of a procedure.
#[tactic(auto, unfolding(tta_lower::specs::Layout::base))]
fn base(p: &Program, owner: u32) -> u128
    ensures value { result ≡ base p.now owner }
    ensures few { result < 2 ^ 100 }
{
    let mut slots: u128 = 0;
    for (k, q) in p.procs.as_slice().iter().enumerate() {
        if k >= owner as usize {
            return slots;
        }
        slots += own(p, k) + u128::from(q.vars);
    }
    slots
}

/// The slot of a variable.
pub fn var_slot(p: &Program, owner: u32, x: u32) -> u128
    ensures { result ≡ var_slot p.now owner x }
{
    base(p, owner) + own(p, owner as usize) + u128::from(x)
}
