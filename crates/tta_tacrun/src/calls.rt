//! The calls that are under way.

ghost use Rattle.std.specs.Prelude.{◌≡◌, ◌+◌, ◌<◌, ◌≤◌, ◌^◌, ◌∷◌, [], length, map, replicate};
ghost use Rattle.std.specs.Prelude.{if◌then◌else◌, slice_index, slice_index_or, slice_set, IfOk, IsFalse};
ghost use Rattle.std.specs.Prelude.{ℕ, List, None, is_some, true, false};
ghost use Rattle.tta_list.specs.Iterate.{iterate};
ghost use Rattle.tta_ops.specs.Set.{stated};
ghost use Rattle.tta_program.specs.Program.{Program};
ghost use Rattle.tta_program.specs.Rules.{IsProgram};
ghost use Rattle.tta_program.specs.Sequential.{carry_out, enter, next, operand, step_at, takes};
ghost use Rattle.tta_tacrun.specs.Calls.{IsFresh, begun};
ghost use Rattle.tta_tacrun.specs.Code.{said_proc};
ghost use Rattle.tta_tacrun.specs.Flat.{has_variables};
ghost use Rattle.tta_tacrun.specs.Run.{frame, is_silent, state_of, AreSilentOf, HasSteps};

use crate::basis::Basis;
use crate::cells::Cells;
use crate::entry::Entry;
use crate::flat::flat_of;
use crate::flat_proc::FlatProc;
use crate::pass::{pass, value_of};
use crate::phase::Phase;
use crate::relations::Relations;
use crate::silent::{Leg, run_silent, step_silent};
use crate::words::Words;
use std::alloc::{AllocError, Global};
use std::marker::Model;
use tta_ops::UnitSet;
use tta_program::{Program, Src, Step};

/// The calls that are under way. One always is.
///
/// Each procedure is under way at most once, since calls form no cycle. So each has its variables
/// in a place of its own, and a call takes no memory.
#[derive(Drop)]
pub struct Calls {
    /// The variables of each procedure.
    variables: Vec<Cells>,
    /// The innermost call.
    top: Entry,
    /// The other calls, the outermost first.
    callers: Vec<Entry>,
}

impl Model for Calls {
    ghost use Rattle.std.specs.Vec.{vec_capacity};
    ghost use Rattle.tta_tacrun.specs.Calls.{Calls, calls_of, AreKept};

    ghost Value = { Calls };

    ghost view = { λ c. calls_of c.variables.items c.top c.callers.items };

    ghost invariant = { λ c.
        AreKept c.variables.items c.top c.callers.items (vec_capacity c.callers) };
}

/// Variables for each procedure, every one 0.
fn all_variables(alloc: Global, p: &Program) -> Result<Vec<Cells>, AllocError>
    ensures { IfOk result (λ v. v.items ≡ map (λ q. replicate q.vars 0) p.now.procs) }
{
    let procs = p.procs.as_slice();
    let mut variables = Vec::with_capacity(alloc, procs.len())?;
    for q in procs {
        variables.push(Cells::zeros(alloc, q.vars)?)?;
    }
    Ok(variables)
}

impl Calls {
    /// The call that a run of the program begins with.
    pub fn of(alloc: Global, p: &Program) -> Result<Self, AllocError>
        ensures first { IfOk result (λ c. c ≡ record {
          sizes = map (λ q. q.vars) p.now.procs;
          top = enter p.now p.now.main [];
          below = [];
        }) }
        ensures rules { IsProgram p.now }
    {
        let proc = p.main as usize;
        let variables = all_variables(alloc, p)?;
        let callers = Vec::with_capacity(alloc, variables.len())?;
        let top = Entry { proc, at: 0 };
        Ok(Calls {
            variables,
            top,
            callers,
        })
    }

    /// Where the innermost call is.
    pub fn top(&self) -> Entry
        ensures proc { result.proc ≡ self.now.top.proc }
        ensures at { result.at ≡ self.now.top.at }
    {
        self.top
    }

    /// The word that an operand of the innermost call stands for.
    pub fn value(&self, s: Src) -> u32
        ensures { result ≡ operand self.now.top.vars s }
    {
        value_of(&self.variables[self.top.proc], s)
    }

    /// The innermost call goes on at a step.
    pub fn go_to(&mut self, at: usize)
        ensures { self.new ≡ record self.old { top = record self.old.top { at = at } } }
    {
        self.top.at = at;
    }

    /// A variable of the innermost call becomes a word, and the next step comes.
    pub fn assign(&mut self, d: u32, word: u32)
        requires { self.old.top.at + 1 < 2 ^ 64 }
        ensures { let f = self.old.top in
            let g = record f { at = f.at + 1; vars = slice_set f.vars d word } in
            self.new ≡ record self.old { top = g } }
    {
        self.variables[self.top.proc].set(d as usize, word);
        self.top.at += 1;
    }

    /// The innermost call makes a step that neither outputs nor takes a word, and neither begins nor
    /// ends a call. It answers whether the step is such a one; where it is another, nothing changes.
    pub fn step_silent(
        &mut self,
        memory: &mut Words,
        relations: &mut Relations,
        units: &UnitSet,
        step: &Step,
    ) -> bool
        requires more { self.old.top.at + 1 < 2 ^ 64 }
        requires there { let size = slice_index self.old.sizes self.old.top.proc in
            has_variables size step.now ≡ true }
        ensures silent { result ≡ is_silent step.now }
        ensures takes { result ≡ true → takes step.now ≡ false }
        ensures space { length memory.new ≡ length memory.old }
        ensures memory { result ≡ false → memory.new ≡ memory.old }
        ensures calls { result ≡ false → self.new ≡ self.old }
        ensures top { let f = frame self.old.top.proc self.new.top.at self.new.top.vars in
            self.new ≡ record self.old { top = f } }
        ensures made { result ≡ true → (p : Program) (rest output : List ℕ) (n : ℕ)
            → let U = stated unit_meaning units.now in
            let s = state_of Phase.Running self.old memory.old rest output n in
            carry_out U p s self.old.top self.old.below step.now
            ≡ state_of Phase.Running self.new memory.new rest output n }
    {
        let vars = &mut self.variables[self.top.proc];
        let flat = flat_of(vars.len(), step);
        let Some(to) = step_silent(vars, memory, relations, units, &flat, self.top.at) else {
            return false;
        };
        self.top.at = to;
        true
    }

    /// The innermost call makes so many of its steps, or as many as there are until one outputs or
    /// takes a word, or begins or ends a call. It answers how many it made.
    #[inline(always)]
    pub fn run_silent(
        &mut self,
        memory: &mut Words,
        relations: &mut Relations,
        basis: &Basis<'_>,
        flat: &FlatProc,
        most: u64,
    ) -> u64
        requires size { flat.now.size ≡ slice_index self.old.sizes self.old.top.proc }
        requires rules { IsProgram basis.now.p.now }
        requires silent { AreSilentOf basis.now.p.now self.old.top.proc (said_proc flat.now).steps }
        requires all { HasSteps basis.now.p.now self.old.top.proc (length flat.now.steps.items) }
        requires placed { let p = basis.now.p.now in
            is_some (step_at p self.old.top.proc self.old.top.at) ≡ true }
        ensures within { result ≤ most }
        ensures stops { result < most
            → slice_index_or (said_proc flat.now).steps self.new.top.at None ≡ None }
        ensures space { length memory.new ≡ length memory.old }
        ensures top { let f = frame self.old.top.proc self.new.top.at self.new.top.vars in
            self.new ≡ record self.old { top = f } }
        ensures made { (rest output : List ℕ) (n : ℕ)
            → let U = stated unit_meaning basis.now.units.now in
            let s = state_of Phase.Running self.old memory.old rest output n in
            iterate result (next U basis.now.p.now) s
            ≡ state_of Phase.Running self.new memory.new rest output (n + result) }
        ensures placed { let p = basis.now.p.now in
            is_some (step_at p self.old.top.proc self.new.top.at) ≡ true }
    {
        let mut leg = Leg {
            proc: self.top.proc,
            at: self.top.at,
            left: most,
        };
        let vars = &mut self.variables[self.top.proc];
        let steps = flat.steps.as_slice();
        run_silent(vars, memory, relations, basis, steps, &mut leg);
        self.top.at = leg.at;
        most - leg.left
    }

    /// A procedure is called, with arguments that are operands of the innermost call.
    pub fn enter(&mut self, callee: usize, args: &[Src])
        requires there { callee < length self.old.sizes }
        requires fresh { IsFresh callee self.old }
        requires fit { length args.now ≤ slice_index self.old.sizes callee }
        ensures { let words = map (operand self.old.top.vars) args.now in
            let vars = begun words (slice_index self.old.sizes callee) in
            self.new ≡ record self.old {
              top = record { proc = callee; at = 0; vars = vars };
              below = self.old.top ∷ self.old.below;
            } }
    {
        pass(&mut self.variables, self.top.proc, callee, args);
        self.callers.push_reserved(self.top);
        self.top = Entry {
            proc: callee,
            at: 0,
        };
    }

    /// The innermost call ends. It answers whether there is a call after it; where there is none,
    /// nothing changes.
    pub fn leave(&mut self) -> bool
        ensures sizes { self.new.sizes ≡ self.old.sizes }
        ensures left { self.old.below ≡ (if result then self.new.top ∷ self.new.below else []) }
        ensures last { IsFalse result → self.new ≡ self.old }
    {
        match self.callers.pop() {
            Some(caller) => {
                self.top = caller;
                true
            }
            None => false,
        }
    }
}
