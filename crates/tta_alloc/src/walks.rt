//! The first and the last position that counts for each variable, in one walk each.

ghost use Rattle.std.specs.Prelude.{IfOk};
ghost use Rattle.tta_alloc.specs.Bodies.{IsKnown};
ghost use Rattle.tta_alloc.specs.Together.{AreFirst, AreLast};

use crate::body::Body;
use crate::met::Seen;
use std::alloc::{AllocError, Global};
use tta_flow::BitRow;

/// For each variable the first position that counts for it.
pub fn firsts(alloc: Global, body: &Body<'_>) -> Result<Seen, AllocError>
    requires { IsKnown body.now }
    ensures { IfOk result (λ m. AreFirst body.now.q.now m) }
{
    let mut places = Seen::new(alloc, body.q.vars)?;
    let mut row = BitRow::new(alloc, body.q.vars as usize)?;
    for place in 0..body.q.steps.len() + 1 {
        body.fill(&mut row, place);
        places.meet(&row, place as u32);
    }
    Ok(places)
}

/// For each variable the last position that counts for it.
pub fn lasts(alloc: Global, body: &Body<'_>) -> Result<Seen, AllocError>
    requires { IsKnown body.now }
    ensures { IfOk result (λ m. AreLast body.now.q.now m) }
{
    let mut places = Seen::new(alloc, body.q.vars)?;
    let mut row = BitRow::new(alloc, body.q.vars as usize)?;
    let mut place = body.q.steps.len() + 1;
    while place > 0 {
        place -= 1;
        body.fill(&mut row, place);
        places.meet(&row, place as u32);
    }
    Ok(places)
}
