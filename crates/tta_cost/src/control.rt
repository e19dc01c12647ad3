//! Control: which address comes next, and whether a clock carries the instruction out.

ghost use Rattle.std.specs.Prelude.{◌≡◌};
ghost use Rattle.tta_arch.specs.Rules.{same_op};
ghost use Rattle.tta_arch.specs.declared.parts.Op.TheVariants.{Out, Take};
ghost use Rattle.tta_circuit.specs.Circuit as c;
ghost use Rattle.tta_cost.specs.Depths.{cost_of};
ghost use Rattle.tta_offers.specs.Offers.{places_of};
ghost use Rattle.tta_hardware.specs.Signals as s;
ghost use Rattle.tta_hardware.specs.Wires as w;

use crate::offers::{Given, some_start, word_where};
use crate::on::On;
use crate::reach::{arrivals, reached};
use tta_arch::Dest;
use tta_measure::{Cost, SUM};
use tta_offers::OpAt;

/// Where units offer the output, and the input.
#[derive(Clone, Copy)]
pub struct Streams<'a> {
    pub on: &'a On<'a>,
    pub gives: &'a [OpAt],
    pub takes: &'a [OpAt],
    ghost gives_is: { places_of gives.now ≡ w.all_ops on.now.m.now (same_op Out) },
    ghost takes_is: { places_of takes.now ≡ w.all_ops on.now.m.now (same_op Take) },
}

/// Whether a control move acts.
pub fn controls(on: &On<'_>) -> Cost
    ensures { let T = on.now.applied.now in let M = on.now.m.now in
        result ≡ cost_of T M (w.made_of M s.Controls) }
{
    let more = reached(on, Dest::Call).gate(reached(on, Dest::Halt));
    reached(on, Dest::Jump).gate(more)
}

/// Whether a control move acts, where it is read.
#[tactic(auto, using(crate::proofs::Depths::line_is))]
pub fn controls_line(on: &On<'_>) -> Cost
    ensures { let T = on.now.applied.now in let M = on.now.m.now in
        result ≡ cost_of T M (c.Signal s.Controls) }
{
    controls(on).read()
}

/// The address to which it leads.
#[tactic(auto, using(crate::proofs::Chains::first_is, crate::proofs::Chains::first_append, crate::proofs::Depths::known))]
pub fn goal_now(on: &On<'_>) -> Cost
    ensures { let T = on.now.applied.now in let M = on.now.m.now in
        result ≡ cost_of T M (w.made_of M s.GoalNow) }
{
    let calls = arrivals(on, Dest::Call, false, Cost::free());
    arrivals(on, Dest::Jump, false, calls)
}

/// The address to which a control move leads, where it is read.
#[tactic(auto, using(crate::proofs::Depths::line_is))]
pub fn goal_line(on: &On<'_>) -> Cost
    ensures { let T = on.now.applied.now in let M = on.now.m.now in
        result ≡ cost_of T M (c.Signal s.GoalNow) }
{
    goal_now(on).read()
}

/// Whether that of the one under way halts.
#[tactic(auto, using(crate::proofs::Depths::known))]
fn ends_kept(on: &On<'_>) -> Cost
    ensures { let T = on.now.applied.now in let M = on.now.m.now in
        result ≡ cost_of T M (c.Signal s.Ends) }
{
    Cost::free()
}

/// Whether it halts.
#[tactic(auto, using(crate::proofs::Chains::reached_wide))]
pub fn ends_now(on: &On<'_>) -> Cost
    ensures { let T = on.now.applied.now in let M = on.now.m.now in
        result ≡ cost_of T M (w.made_of M s.EndsNow) }
{
    Cost::choice(1, controls_line(on), reached(on, Dest::Halt), ends_kept(on))
}

/// Whether a control move halts, where it is read.
#[tactic(auto, using(crate::proofs::Depths::line_is))]
pub fn ends_line(on: &On<'_>) -> Cost
    ensures { let T = on.now.applied.now in let M = on.now.m.now in
        result ≡ cost_of T M (c.Signal s.EndsNow) }
{
    ends_now(on).read()
}

/// Whether a control move takes effect at this clock.
#[tactic(auto, using(crate::proofs::Depths::known))]
pub fn lands(on: &On<'_>) -> Cost
    ensures { let T = on.now.applied.now in let M = on.now.m.now in
        result ≡ cost_of T M (w.made_of M s.Lands) }
{
    let m = on.m;
    if m.control.delay == 0 {
        controls_line(on)
    } else {
        Cost::free()
    }
}

/// Whether a control move takes effect at this clock, where it is read.
#[tactic(auto, using(crate::proofs::Depths::line_is))]
pub fn lands_line(on: &On<'_>) -> Cost
    ensures { let T = on.now.applied.now in let M = on.now.m.now in
        result ≡ cost_of T M (c.Signal s.Lands) }
{
    lands(on).read()
}

/// Whether a word of the input is asked for.
pub fn asks(of: &Streams<'_>) -> Cost
    ensures { let T = of.now.on.now.applied.now in let M = of.now.on.now.m.now in
        result ≡ cost_of T M (w.made_of M s.Asks) }
{
    some_start(of.on, of.takes)
}

/// Whether a word is to be output.
pub fn gives(of: &Streams<'_>) -> Cost
    ensures { let T = of.now.on.now.applied.now in let M = of.now.on.now.m.now in
        result ≡ cost_of T M (w.made_of M s.Gives) }
{
    some_start(of.on, of.gives)
}

/// The first of these where it is read.
#[tactic(auto, using(crate::proofs::Depths::line_is))]
fn asks_line(of: &Streams<'_>) -> Cost
    ensures { let T = of.now.on.now.applied.now in let M = of.now.on.now.m.now in
        result ≡ cost_of T M (c.Signal s.Asks) }
{
    asks(of).read()
}

/// The second where it is read.
#[tactic(auto, using(crate::proofs::Depths::line_is))]
fn gives_line(of: &Streams<'_>) -> Cost
    ensures { let T = of.now.on.now.applied.now in let M = of.now.on.now.m.now in
        result ≡ cost_of T M (c.Signal s.Gives) }
{
    gives(of).read()
}

/// Whether this clock carries the instruction out.
#[tactic(auto, using(crate::proofs::Depths::known))]
pub fn goes(of: &Streams<'_>) -> Cost
    ensures { let T = of.now.on.now.applied.now in let M = of.now.on.now.m.now in
        result ≡ cost_of T M (w.made_of M s.Goes) }
{
    let taken = asks_line(of).gate(Cost::free());
    let given = gives_line(of).gate(Cost::free());
    Cost::free().gate(Cost::free().gate(taken.gate(given)))
}

/// Whether this clock carries the instruction out, where it is read.
#[tactic(auto, using(crate::proofs::Depths::line_is))]
pub fn goes_line(of: &Streams<'_>) -> Cost
    ensures { let T = of.now.on.now.applied.now in let M = of.now.on.now.m.now in
        result ≡ cost_of T M (c.Signal s.Goes) }
{
    goes(of).read()
}

/// The address of the next instruction, as an address has so many bits.
#[tactic(auto, using(crate::proofs::Depths::known))]
fn after(on: &On<'_>) -> Cost
    ensures { let T = on.now.applied.now in let M = on.now.m.now in
        result ≡ cost_of T M (w.next_pc M) }
{
    let m = on.m;
    let leads = lands_line(on).gate(ends_line(on));
    let follows = Cost::free().beside(Cost::free()).behind(SUM);
    Cost::choice(u64::from(m.control.address), leads, goal_line(on), follows)
}

/// The address of the next instruction, which is 0 where the circuit begins anew.
#[tactic(auto, using(crate::proofs::Depths::known))]
pub fn next_pc(on: &On<'_>) -> Cost
    ensures { let T = on.now.applied.now in let M = on.now.m.now in
        result ≡ cost_of T M (w.made_of M s.NextPc) }
{
    let m = on.m;
    let width = u64::from(m.control.address);
    Cost::choice(width, Cost::free(), Cost::free(), after(on))
}

/// The address of the next instruction, where it is read.
#[tactic(auto, using(crate::proofs::Depths::line_is))]
pub fn next_line(on: &On<'_>) -> Cost
    ensures { let T = on.now.applied.now in let M = on.now.m.now in
        result ≡ cost_of T M (c.Signal s.NextPc) }
{
    next_pc(on).read()
}

/// Whether a word is output.
pub fn puts(of: &Streams<'_>) -> Cost
    ensures { let T = of.now.on.now.applied.now in let M = of.now.on.now.m.now in
        result ≡ cost_of T M (w.made_of M s.Puts) }
{
    goes_line(of).gate(gives_line(of))
}

/// That word.
pub fn put_word(of: &Streams<'_>) -> Cost
    ensures { let T = of.now.on.now.applied.now in let M = of.now.on.now.m.now in
        result ≡ cost_of T M (w.made_of M s.PutWord) }
{
    word_where(of.on, Given::Trigger, of.gives)
}
