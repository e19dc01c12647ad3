//! Steps that stay in one call.

ghost use Rattle.std.specs.Prelude.{◌≡◌, ℕ, List, ◌+◌, ◌-◌, ◌<◌, ◌≤◌, ◌^◌, length, map};
ghost use Rattle.std.specs.Prelude.{None, Some, IfSome, is_some, slice_get, true};
ghost use Rattle.std.specs.Prelude.{slice_index, slice_index_or, slice_set};
ghost use Rattle.std.specs.List.{list_all};
ghost use Rattle.tta_ops.specs.Set.{stated};
ghost use Rattle.tta_list.specs.Iterate.{iterate};
ghost use Rattle.tta_program.specs.Rules.{IsProgram};
ghost use Rattle.tta_program.specs.Sequential.{Frame, holds, next, step_at};
ghost use Rattle.tta_tacrun.specs.Flat.{has_cells, is_operand, said, word_at};
ghost use Rattle.tta_tacrun.specs.Run.{going, AreSilentOf, GoesTo, HasSteps};

use crate::basis::Basis;
use crate::cells::Cells;
use crate::flat::{FlatStep, Operand};
use crate::relations::Relations;
use crate::words::Words;
use tta_ops::{OpId, UnitSet};
use tta_program::Rel;

/// The word of an operand.
#[inline(always)]
fn word_of(vars: &Cells, o: Operand) -> u32
    requires { is_operand (length vars.now) o ≡ true }
    ensures { result ≡ word_at vars.now o }
{
    vars.at(o.cell).wrapping_add(o.word)
}

/// A variable becomes the word of an operand.
#[inline(always)]
fn copy(vars: &mut Cells, d: u32, s: Operand)
    requires to { d < length vars.old }
    requires from { is_operand (length vars.old) s ≡ true }
    ensures { vars.new ≡ slice_set vars.old d (word_at vars.old s) }
{
    let word = word_of(vars, s);
    vars.put(d, word);
}

/// A variable becomes what an operation makes of two operands.
#[inline(always)]
fn apply(vars: &mut Cells, units: &UnitSet, d: u32, op: OpId, a: Operand, b: Operand)
    requires to { d < length vars.old }
    requires first { is_operand (length vars.old) a ≡ true }
    requires second { is_operand (length vars.old) b ≡ true }
    ensures { let U = stated unit_meaning units.now in
        vars.new ≡ slice_set vars.old d (U.value op.0 (word_at vars.old a) (word_at vars.old b)) }
{
    let word = units.apply(op, word_of(vars, a), word_of(vars, b));
    vars.put(d, word);
}

/// A variable becomes the data word at the address that an operand gives.
#[inline(always)]
fn load(vars: &mut Cells, memory: &Words, d: u32, a: Operand)
    requires to { d < length vars.old }
    requires from { is_operand (length vars.old) a ≡ true }
    ensures { vars.new ≡ slice_set vars.old d (slice_index memory.now (word_at vars.old a)) }
{
    let word = memory.get(word_of(vars, a) as usize);
    vars.put(d, word);
}

/// The data word at the address that an operand gives becomes the word of another.
#[inline(always)]
fn store(vars: &Cells, memory: &mut Words, a: Operand, v: Operand)
    requires to { is_operand (length vars.now) a ≡ true }
    requires from { is_operand (length vars.now) v ≡ true }
    ensures { memory.new ≡ slice_set memory.old (word_at vars.now a) (word_at vars.now v) }
{
    memory.set(word_of(vars, a) as usize, word_of(vars, v));
}

/// Whether a condition holds on two operands.
#[inline(always)]
fn is_held(
    vars: &Cells,
    relations: &mut Relations,
    units: &UnitSet,
    rel: Rel,
    a: Operand,
    b: Operand,
) -> bool
    requires first { is_operand (length vars.now) a ≡ true }
    requires second { is_operand (length vars.now) b ≡ true }
    ensures { let U = stated unit_meaning units.now in
        result ≡ holds U rel (word_at vars.now a) (word_at vars.now b) }
{
    relations.is_held(units, rel, word_of(vars, a), word_of(vars, b))
}

/// Carries out a step that neither outputs nor takes a word, and neither begins nor ends a call. It
/// answers the step that comes next, and `None` where the step is another.
#[inline(always)]
pub fn step_silent(
    vars: &mut Cells,
    memory: &mut Words,
    relations: &mut Relations,
    units: &UnitSet,
    step: &FlatStep,
    at: usize,
) -> Option<usize>
    requires more { at + 1 < 2 ^ 64 }
    requires within { has_cells (length vars.old) step.now ≡ true }
    ensures size { length vars.new ≡ length vars.old }
    ensures space { length memory.new ≡ length memory.old }
    ensures silent { is_some result ≡ is_some (said (length vars.old) step.now) }
    ensures vars { result ≡ None → vars.new ≡ vars.old }
    ensures memory { result ≡ None → memory.new ≡ memory.old }
    ensures made { IfSome result (λ to. IfSome (said (length vars.old) step.now)
        (GoesTo (stated unit_meaning units.now) at to vars.old vars.new memory.old memory.new)) }
{
    match *step {
        FlatStep::Copy { d, s } => copy(vars, d, s),
        FlatStep::Apply { d, op, a, b } => apply(vars, units, d, op, a, b),
        FlatStep::Load { d, a } => load(vars, memory, d, a),
        FlatStep::Store { a, v } => store(vars, memory, a, v),
        FlatStep::When { rel, a, b, d, s } => {
            if is_held(vars, relations, units, rel, a, b) {
                copy(vars, d, s);
            }
        }
        FlatStep::If { rel, a, b, to } => {
            let held = is_held(vars, relations, units, rel, a, b);
            return Some(if held { to as usize } else { at + 1 });
        }
        FlatStep::Goto { to } => return Some(to as usize),
        FlatStep::Loud => return None,
    }
    Some(at + 1)
}

/// The step at a place.
#[inline(always)]
fn step_in(steps: &[FlatStep], at: usize) -> &FlatStep
    requires { at < length steps.now }
    ensures value { slice_get steps.now at ≡ Some result.now }
    ensures more { at + 1 < 2 ^ 64 }
{
    &steps[at]
}

/// Where a call is, and how many steps it may go on.
#[derive(Clone, Copy)]
pub struct Leg {
    pub proc: usize,
    pub at: usize,
    pub left: u64,
}

/// Carries out steps of a call as long as they neither output nor take a word, and neither begin
/// nor end a call.
#[inline(always)]
pub fn run_silent(
    vars: &mut Cells,
    memory: &mut Words,
    relations: &mut Relations,
    basis: &Basis<'_>,
    steps: &[FlatStep],
    leg: &mut Leg,
)
    requires cells { list_all (has_cells (length vars.old)) steps.now ≡ true }
    requires rules { IsProgram basis.now.p.now }
    requires silent { let parts = map (said (length vars.old)) steps.now in
        AreSilentOf basis.now.p.now leg.old.proc parts }
    requires all { HasSteps basis.now.p.now leg.old.proc (length steps.now) }
    requires placed { is_some (step_at basis.now.p.now leg.old.proc leg.old.at) ≡ true }
    ensures within { leg.new.left ≤ leg.old.left }
    ensures stops { 0 < leg.new.left
        → slice_index_or (map (said (length vars.old)) steps.now) leg.new.at None ≡ None }
    ensures size { length vars.new ≡ length vars.old }
    ensures space { length memory.new ≡ length memory.old }
    ensures made { (callers : List Frame) (rest output : List ℕ) (n : ℕ)
        → let U = stated unit_meaning basis.now.units.now in
        let proc = leg.old.proc in
        let k = leg.old.left - leg.new.left in
        let s = going proc leg.old.at vars.old callers memory.old rest output n in
        iterate k (next U basis.now.p.now) s
        ≡ going proc leg.new.at vars.new callers memory.new rest output (n + k) }
    ensures placed { is_some (step_at basis.now.p.now leg.old.proc leg.new.at) ≡ true }
{
    'steps: while leg.left > 0 {
        let step = step_in(steps, leg.at);
        let Some(to) = step_silent(vars, memory, relations, basis.units, step, leg.at) else {
            return;
        };
        leg.at = to;
        leg.left -= 1;
    }
}
