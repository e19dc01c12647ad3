//! For each step of a procedure the variables that are live before it.

ghost use Rattle.std.specs.Prelude.{◌≡◌, ◌<◌, length, IfOk};
ghost use Rattle.tta_flow.specs.Growth.{Sets};
ghost use Rattle.tta_flow.specs.Live.{AreRows};
ghost use Rattle.tta_flow.specs.Order.{ArePlaces};
ghost use Rattle.tta_flow.specs.Rows.{TellsBefore, IsWork, Visits, Rounds};
ghost use Rattle.tta_flow.specs.Search.{is_found};

use crate::bits::BitRow;
use crate::edges::steps_before;
use crate::gather::gather;
use crate::order::postorder;
use crate::settle::Settling;
use crate::table::PlaceLists;
use std::alloc::{AllocError, Global};
use tta_list::either;
use tta_program::Step;

/// Rows that grow: for each step the variables that are known to be live before it, and the steps
/// that have to be looked at again. The room for one row more is there.
#[derive(Drop)]
pub struct Work {
    pub rows: Vec<BitRow>,
    pub due: BitRow,
    pub room: BitRow,
}

/// How many rounds are made at most before the rest is settled.
const ROUNDS: usize = 4;

/// For each step the variables that are live before it.
///
/// At most `ROUNDS` rounds are made, each in time as the steps times the words of a row: they are
/// enough for most procedures. The rest is settled, in time as the steps times the variables,
/// whatever the flow is: a variable is put into the row of a step once, and carried on from there.
pub fn live_rows(alloc: Global, steps: &[Step], vars: u32) -> Result<Vec<BitRow>, AllocError>
    ensures { IfOk result (λ rows. AreRows steps.now vars rows.items) }
{
    let before = steps_before(alloc, steps)?;
    let order = postorder(alloc, steps)?;
    let mut work = Work::new(alloc, steps, vars)?;
    for _ in 0..ROUNDS {
        if !work.round(steps, vars, &before, order.as_slice()) {
            return Ok(work.into_rows());
        }
    }
    work.settle(alloc, steps, vars, &before)
}

impl Work {
    /// Rows of which nothing is known: each step has to be looked at.
    fn new(alloc: Global, steps: &[Step], vars: u32) -> Result<Self, AllocError>
        ensures { IfOk result (λ work. IsWork steps.now vars work) }
    {
        let mut rows = Vec::new(alloc);
        let mut due = BitRow::new(alloc, steps.len())?;
        for at in 0..steps.len() {
            rows.push(BitRow::new(alloc, vars as usize)?)?;
            due.set_within(at);
        }
        let room = BitRow::new(alloc, vars as usize)?;
        Ok(Work { rows, due, room })
    }

    /// Looks at each step that has to be looked at, the last one first, and where a row has grown
    /// looks again along an order. Says whether any row has grown.
    ///
    /// Where the order is the postorder of a depth-first walk, d + 2 rounds are enough, d being the
    /// largest number of edges backward in that order on a path that comes to no step twice (Kam and
    /// Ullman, Global data flow analysis and iterative algorithms, J. ACM 23, 1976). Loops inside one
    /// another seldom make it more than two or three, but a procedure can be written in which it
    /// grows as its steps do. So no more than `ROUNDS` are made, and then the rest is settled.
    fn round(&mut self, steps: &[Step], vars: u32, before: &PlaceLists, order: &[usize]) -> bool
        requires work { IsWork steps.now vars self.old }
        requires before { TellsBefore steps.now before.now }
        requires places { ArePlaces (length steps.now) order.now }
        ensures { Rounds steps.now vars result self.new }
    {
        let upward = self.look_upward(steps, vars, before);
        if !upward {
            return false;
        }
        let along = self.look_along(steps, vars, before, order);
        either(upward, along)
    }

    /// Looks at the steps of an order, and says whether any row has grown.
    fn look_along(
        &mut self,
        steps: &[Step],
        vars: u32,
        before: &PlaceLists,
        order: &[usize],
    ) -> bool
        requires work { IsWork steps.now vars self.old }
        requires before { TellsBefore steps.now before.now }
        requires places { ArePlaces (length steps.now) order.now }
        ensures { IsWork steps.now vars self.new }
    {
        let mut grown = false;
        for place in order {
            let more = self.visit(steps, vars, before, *place);
            grown = either(grown, more);
        }
        grown
    }

    /// Looks at each step, the last one first, and says whether any row has grown.
    fn look_upward(&mut self, steps: &[Step], vars: u32, before: &PlaceLists) -> bool
        requires work { IsWork steps.now vars self.old }
        requires before { TellsBefore steps.now before.now }
        ensures { Rounds steps.now vars result self.new }
    {
        let mut grown = false;
        let mut at = steps.len();
        while at > 0 {
            at -= 1;
            let more = self.visit(steps, vars, before, at);
            grown = either(grown, more);
            at = self.due.clear_from(at);
        }
        grown
    }

    /// Looks at a step if it has to be looked at, and says whether its row has grown. Then those
    /// that it can follow have to be looked at.
    fn visit(&mut self, steps: &[Step], vars: u32, before: &PlaceLists, at: usize) -> bool
        requires there { at < length steps.now }
        requires work { IsWork steps.now vars self.old }
        requires before { TellsBefore steps.now before.now }
        ensures { Visits steps.now vars at result self.old self.new }
    {
        if !self.due.get(at) {
            return false;
        }
        self.due.unset(at);
        gather(&mut self.room, self.rows.as_slice(), &steps[at], at);
        let row = &mut self.rows[at];
        let grown = row.absorb(&self.room);
        if grown {
            due_all(&mut self.due, before.at(at));
        }
        grown
    }

    /// Settles the steps that have still to be looked at, one after the other: what a step wants is
    /// put into its row, and carried backward from there. So no step has to be looked at again.
    fn settle(
        self,
        alloc: Global,
        steps: &[Step],
        vars: u32,
        before: &PlaceLists,
    ) -> Result<Vec<BitRow>, AllocError>
        requires work { IsWork steps.now vars self }
        requires before { TellsBefore steps.now before.now }
        ensures { IfOk result (λ rows. AreRows steps.now vars rows.items) }
    {
        let Work {
            rows,
            due,
            mut room,
        } = self;
        let stack = Vec::new(alloc);
        let mut settling = Settling { rows, stack };
        for at in 0..steps.len() {
            if due.get(at) {
                gather(&mut room, settling.rows.as_slice(), &steps[at], at);
                settling.take(steps, vars, before, &room, at)?;
            }
        }
        Ok(settling.into_rows())
    }

    /// The rows.
    fn into_rows(self) -> Vec<BitRow>
        ensures { result ≡ self.rows }
    {
        let Work { rows, .. } = self;
        rows
    }
}

/// Sets bits by a list of places.
fn due_all(due: &mut BitRow, places: &[usize])
    ensures { Sets (is_found places.now) due.old due.new }
{
    for place in places {
        due.set_within(*place);
    }
}
