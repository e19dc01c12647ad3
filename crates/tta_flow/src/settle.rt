//! Variables that are carried backward, along the edges, from the steps before which they are live.

ghost use Rattle.std.specs.Prelude.{◌≡◌, ◌==◌, ◌&&◌, not, ◌<◌, ℕ, true, length, OnOk};
ghost use Rattle.tta_flow.specs.Bits.{has};
ghost use Rattle.tta_flow.specs.Paths.{LiveBefore};
ghost use Rattle.tta_flow.specs.Rows.{has_at, AreWide, TellsBefore};
ghost use Rattle.tta_flow.specs.Settle.{Fits, Puts, Spreads, IsCalm, passes};
ghost use Rattle.tta_flow.specs.Steps.{assigns, assigns_at};

use crate::bits::BitRow;
use crate::steps::assigned_by;
use crate::table::PlaceLists;
use std::alloc::AllocError;
use tta_program::Step;

/// For each step the variables that are known to be live before it, and the steps that wait: a
/// variable is new before them, and has to be carried on from there.
#[derive(Drop)]
pub struct Settling {
    pub rows: Vec<BitRow>,
    pub stack: Vec<usize>,
}

impl Settling {
    /// Puts the variables of a room into the row of a step, and carries those that are new backward
    /// from there.
    pub fn take(
        &mut self,
        steps: &[Step],
        vars: u32,
        before: &PlaceLists,
        room: &BitRow,
        at: usize,
    ) -> Result<(), AllocError>
        requires there { at < length steps.now }
        requires before { TellsBefore steps.now before.now }
        requires calm { IsCalm steps.now self.old }
        requires wide { AreWide self.old.rows.items (length room.now.words.items) }
        requires live { (x : ℕ) → has room.now x ≡ true → LiveBefore steps.now x at }
        ensures spreads { OnOk result (Spreads steps.now (has room.now) self.old self.new) }
        ensures here { OnOk result ((x : ℕ) → x < vars → has room.now x ≡ true
            → has_at self.new.rows.items at x ≡ true) }
    {
        let mut var = 0;
        while var < vars as usize {
            self.take_var(steps, before, room, at, var)?;
            var = self.rows[at].covered_to(room, var + 1);
        }
        Ok(())
    }

    /// The same of one variable, where the room has it.
    fn take_var(
        &mut self,
        steps: &[Step],
        before: &PlaceLists,
        room: &BitRow,
        at: usize,
        var: usize,
    ) -> Result<(), AllocError>
        requires there { at < length steps.now }
        requires before { TellsBefore steps.now before.now }
        requires calm { IsCalm steps.now self.old }
        requires wide { AreWide self.old.rows.items (length room.now.words.items) }
        requires live { has room.now var ≡ true → LiveBefore steps.now var at }
        ensures spreads { OnOk result (Spreads steps.now (has room.now) self.old self.new) }
        ensures here { OnOk result (has room.now var ≡ true
            → has_at self.new.rows.items at var ≡ true) }
    {
        if room.get(var) {
            self.carry(steps, before, at, var)?;
        }
        Ok(())
    }

    /// Puts a variable into the row of a step before which it is live, and carries it backward from
    /// there: into the rows of the steps that lead on to one that has it, and do not assign it.
    fn carry(
        &mut self,
        steps: &[Step],
        before: &PlaceLists,
        from: usize,
        var: usize,
    ) -> Result<(), AllocError>
        requires there { from < length steps.now }
        requires before { TellsBefore steps.now before.now }
        requires calm { IsCalm steps.now self.old }
        requires fits { Fits var self.old.rows.items }
        requires live { LiveBefore steps.now var from }
        ensures spreads { OnOk result (Spreads steps.now (λ x. var == x) self.old self.new) }
        ensures here { OnOk result (has_at self.new.rows.items from var ≡ true) }
    {
        self.put(from, var)?;
        while let Some(at) = self.stack.pop() {
            self.carry_to(steps, before, at, var)?;
        }
        Ok(())
    }

    /// Puts a variable into the rows of the steps that lead to a step, and do not assign it.
    fn carry_to(
        &mut self,
        steps: &[Step],
        before: &PlaceLists,
        at: usize,
        var: usize,
    ) -> Result<(), AllocError>
        requires there { at < length steps.now }
        requires before { TellsBefore steps.now before.now }
        requires count { length self.old.rows.items ≡ length steps.now }
        requires fits { Fits var self.old.rows.items }
        ensures { OnOk result (Puts (passes steps.now at var) var self.old self.new) }
    {
        let places = before.at(at);
        for place in places {
            self.put_kept(steps, *place, var)?;
        }
        Ok(())
    }

    /// Puts a variable into the row of a step that does not assign it.
    fn put_kept(&mut self, steps: &[Step], place: usize, var: usize) -> Result<(), AllocError>
        requires there { place < length steps.now }
        requires count { length self.old.rows.items ≡ length steps.now }
        requires fits { Fits var self.old.rows.items }
        ensures { OnOk result (Puts (λ k. place == k && not (assigns_at steps.now k var)) var
            self.old self.new) }
    {
        if keeps(&steps[place], var) {
            self.put(place, var)?;
        }
        Ok(())
    }

    /// Puts a variable into the row of a step, which waits if the variable is new there.
    fn put(&mut self, place: usize, var: usize) -> Result<(), AllocError>
        requires there { place < length self.old.rows.items }
        requires fits { Fits var self.old.rows.items }
        ensures { OnOk result (Puts (λ k. place == k) var self.old self.new) }
    {
        let row = &mut self.rows[place];
        if row.get(var) {
            return Ok(());
        }
        row.set(var);
        self.stack.push(place)?;
        Ok(())
    }

    /// The rows.
    pub fn into_rows(self) -> Vec<BitRow>
        ensures { result ≡ self.rows }
    {
        let Settling { rows, .. } = self;
        rows
    }
}

/// Whether a step does not assign a variable.
fn keeps(step: &Step, var: usize) -> bool
    ensures { result ≡ not (assigns step.now var) }
{
    match assigned_by(step) {
        Some(d) => d as usize != var,
        None => true,
    }
}
