//! What registers become, and when they take it.

ghost use Rattle.std.specs.Prelude.{◌≡◌, ◌+◌, ◌-◌, ◌<◌, ◌≤◌, ◌==◌, ◌&&◌, map, filter, length};
ghost use Rattle.std.specs.List.{enumerate_from};
ghost use Rattle.tta_arch.specs.Effects.{KeptImm, KeptPort, KeptRa, KeptReg};
ghost use Rattle.tta_arch.specs.Fields.{template_width};
ghost use Rattle.tta_circuit.specs.Circuit as c;
ghost use Rattle.tta_cost.specs.Chains.{first_cost};
ghost use Rattle.tta_cost.specs.Depths.{cost_of};
ghost use Rattle.tta_hardware.specs.Registers as r;
ghost use Rattle.tta_hardware.specs.Signals as s;
ghost use Rattle.tta_hardware.specs.Wires as w;

use crate::buses::file_width;
use crate::control::{controls_line, ends_line, lands_line, next_line};
use crate::fields::{is_code, long_line};
use crate::on::On;
use crate::reach::{arrivals, reached};
use crate::results::{begins, coming, is_coming, made, port_line};
use crate::starts::trigger_line;
use tta_arch::{Dest, Template};
use tta_measure::{Cost, READ, SUM};
use tta_offers::op_at;

/// Whether the instruction has a template.
#[tactic(auto, using(crate::proofs::Depths::known))]
fn is_template(on: &On<'_>, template: u8) -> Cost
    ensures { let T = on.now.applied.now in let M = on.now.m.now in
        result ≡ cost_of T M (c.Equal (c.Signal (s.Fetched s.TemplateOf)) (c.Const (template_width M) (template + 1))) }
{
    is_code(Cost::free())
}

/// What a register of a file keeps.
#[tactic(auto, using(crate::proofs::Depths::known))]
fn kept_reg(on: &On<'_>, file: u8, index: u8) -> Cost
    ensures { let T = on.now.applied.now in let M = on.now.m.now in
        result ≡ cost_of T M (c.Signal (s.Keeps (KeptReg file index))) }
{
    Cost::free()
}

/// What a register of an immediate unit keeps.
#[tactic(auto, using(crate::proofs::Depths::known))]
fn kept_imm(on: &On<'_>, unit: u8, index: u8) -> Cost
    ensures { let T = on.now.applied.now in let M = on.now.m.now in
        result ≡ cost_of T M (c.Signal (s.Keeps (KeptImm unit index))) }
{
    Cost::free()
}

/// The address to which a call before returns.
#[tactic(auto, using(crate::proofs::Depths::known))]
fn kept_ra(on: &On<'_>) -> Cost
    ensures { let T = on.now.applied.now in let M = on.now.m.now in
        result ≡ cost_of T M (c.Signal (s.Keeps KeptRa)) }
{
    Cost::free()
}

/// Whether the circuit is to begin anew.
#[tactic(auto, using(crate::proofs::Depths::known))]
pub fn reset(on: &On<'_>) -> Cost
    ensures { let T = on.now.applied.now in let M = on.now.m.now in
        result ≡ cost_of T M (c.Signal s.IsReset) }
{
    Cost::free()
}

/// What a register of a file keeps from now on.
#[tactic(auto, using(crate::proofs::Chains::first_is))]
pub fn file_next(on: &On<'_>, file: u8, index: u8) -> Cost
    ensures { let T = on.now.applied.now in let M = on.now.m.now in
        result ≡ cost_of T M (r.kept_next M (KeptReg file index)) }
{
    let one_bit = file_width(on.m, file) == 1;
    let old = kept_reg(on, file, index);
    arrivals(on, Dest::Reg { file, index }, one_bit, old)
}

/// Whether a template writes a register of an immediate unit.
fn writes(t: &Template, unit: u8, index: u8) -> bool
    ensures { result ≡ (t.now.imm == unit && t.now.reg == index) }
{
    t.imm == unit && t.reg == index
}

/// The long immediates that go to a register, each after the test whether the instruction has its
/// template, of templates from one on, before another word.
fn longs_from(
    on: &On<'_>,
    unit: u8,
    index: u8,
    template: u8,
    templates: &[Template],
    other: Cost,
) -> Cost
    requires { template + length templates.now ≤ 255 }
    ensures { let T = on.now.applied.now in let M = on.now.m.now in
        result ≡ first_cost T M (map (λ t. (
          c.Equal (c.Signal (s.Fetched s.TemplateOf))
              (c.Const (template_width M) (t.0 + 1)),
          c.Signal (s.Fetched s.LongOf),
        ))
        (filter (λ t. t.1.imm == unit && t.1.reg == index) (enumerate_from template templates.now))) other }
{
    match templates {
        [] => other,
        [t, rest @ ..] => {
            let more = longs_from(on, unit, index, template + 1, rest, other);
            if !writes(t, unit, index) {
                return more;
            }
            Cost::choice(32, is_template(on, template), long_line(on), more)
        }
    }
}

/// What a register of an immediate unit keeps from now on.
#[tactic(auto, using(crate::proofs::Chains::first_is))]
pub fn imm_next(on: &On<'_>, unit: u8, index: u8) -> Cost
    ensures { let T = on.now.applied.now in let M = on.now.m.now in
        result ≡ cost_of T M (r.kept_next M (KeptImm unit index)) }
{
    let m = on.m;
    let old = kept_imm(on, unit, index);
    longs_from(on, unit, index, 0, m.templates.as_slice(), old)
}

/// The address to which a call returns.
#[tactic(auto, using(crate::proofs::Depths::known))]
fn return_address(on: &On<'_>) -> Cost
    ensures { let T = on.now.applied.now in let M = on.now.m.now in
        result ≡ cost_of T M (c.Plus 32
        (c.Join M.control.address (c.Const (32 - M.control.address) 0) (c.Signal s.Pc))
        (c.Const 32 (1 + M.control.delay))) }
{
    let pc = Cost::free().beside(Cost::free());
    pc.beside(Cost::free()).behind(SUM)
}

/// What the return address is from now on.
pub fn ra_next(on: &On<'_>) -> Cost
    ensures { let T = on.now.applied.now in let M = on.now.m.now in
        result ≡ cost_of T M (r.kept_next M KeptRa) }
{
    let calls = reached(on, Dest::Call);
    Cost::choice(32, calls, return_address(on), kept_ra(on))
}

/// What a result port keeps from now on.
#[tactic(auto, using(crate::proofs::Wide::made_wide, crate::proofs::Wide::coming_wide))]
pub fn port_next(on: &On<'_>, unit: u8) -> Cost
    ensures { let T = on.now.applied.now in let M = on.now.m.now in
        result ≡ cost_of T M (r.kept_next M (KeptPort unit)) }
{
    let due = is_coming(on, unit, 1);
    let other = Cost::choice(32, due, coming(on, unit, 1), port_line(on, unit));
    Cost::choice(32, begins(on, unit, 1), made(on, unit, 1), other)
}

/// Whether a result is due in so many cycles from the next on.
pub fn due_next(on: &On<'_>, unit: u8, delay: u8) -> Cost
    requires later { delay < 255 }
    ensures { let T = on.now.applied.now in let M = on.now.m.now in
        result ≡ cost_of T M (r.becomes M (s.IsDue unit delay)) }
{
    let due = begins(on, unit, delay + 1).gate(is_coming(on, unit, delay + 1));
    Cost::choice(1, reset(on), Cost::free(), due)
}

/// The word that is due in so many cycles from the next on.
#[tactic(auto, using(crate::proofs::Wide::made_wide))]
pub fn due_word_next(on: &On<'_>, unit: u8, delay: u8) -> Cost
    requires later { delay < 255 }
    ensures { let T = on.now.applied.now in let M = on.now.m.now in
        result ≡ cost_of T M (r.becomes M (s.Due unit delay)) }
{
    let starts = begins(on, unit, delay + 1);
    let word = coming(on, unit, delay + 1);
    Cost::choice(32, starts, made(on, unit, delay + 1), word)
}

/// The word that a load reads.
pub fn raw_next(on: &On<'_>, unit: u8, op: u8) -> Cost
    ensures { let T = on.now.applied.now in let M = on.now.m.now in
        result ≡ cost_of T M (r.becomes M (s.Raw unit op)) }
{
    match op_at(on.m, unit, op) {
        None => Cost::free(),
        Some(_) => trigger_line(on, unit).behind(READ),
    }
}

/// Whether its address is inside the space.
pub fn inside_next(on: &On<'_>, unit: u8, op: u8) -> Cost
    ensures { let T = on.now.applied.now in let M = on.now.m.now in
        result ≡ cost_of T M (r.becomes M (s.IsInside unit op)) }
{
    match op_at(on.m, unit, op) {
        None => Cost::free(),
        Some(_) => trigger_line(on, unit).beside(Cost::free()).behind(SUM),
    }
}

/// Whether the machine has halted from now on.
pub fn halted_next(on: &On<'_>) -> Cost
    ensures { let T = on.now.applied.now in let M = on.now.m.now in
        result ≡ cost_of T M (r.becomes M s.HasHalted) }
{
    let halts = lands_line(on).gate(ends_line(on));
    Cost::choice(1, reset(on), Cost::free(), halts)
}

/// Whether a control move takes effect in so many cycles.
#[tactic(auto, using(crate::proofs::Depths::known))]
fn underway(on: &On<'_>, delay: u8) -> Cost
    requires later { delay < 255 }
    ensures { let T = on.now.applied.now in let M = on.now.m.now in
        result ≡ cost_of T M (r.next_of M (s.Underway delay)) }
{
    let m = on.m;
    if delay == m.control.delay {
        controls_line(on)
    } else {
        Cost::free()
    }
}

/// Whether a control move takes effect in so many cycles, from now on.
pub fn underway_next(on: &On<'_>, delay: u8) -> Cost
    requires later { delay < 255 }
    ensures { let T = on.now.applied.now in let M = on.now.m.now in
        result ≡ cost_of T M (r.becomes M (s.Underway delay)) }
{
    Cost::choice(1, reset(on), Cost::free(), underway(on, delay))
}

/// The next instruction's word.
pub fn whole_next(on: &On<'_>) -> Cost
    ensures { let T = on.now.applied.now in let M = on.now.m.now in
        result ≡ cost_of T M (r.becomes M s.Whole) }
{
    next_line(on).behind(READ)
}
