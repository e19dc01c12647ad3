//! The home registers of two variables, the second of which is needed only after the first.

ghost use Rattle.std.specs.Prelude.{◌≡◌, IfOk};
ghost use Rattle.tta_lower.specs.TwoWords.{two_words};

use std::alloc::{AllocError, Global};
use std::test::Fail;
use tta_alloc::{Home, Homes, assign, in_turn};
use tta_flow::{Flow, Live};
use tta_list::Items;
use tta_program::{Proc, Program, Src, Step};

/// `proc main`, `a = 3`, `out a`, `b = 4`, `out b`, `end`: so `a` is needed at the positions 1 and
/// 2, and `b` at 3 and 4.
fn two_words(alloc: Global) -> Result<Proc, AllocError>
    ensures { IfOk result (λ q. q ≡ two_words) }
{
    let mut steps = Items::new(alloc);
    steps.push(Step::Copy {
        d: 0,
        s: Src::Word(3),
    })?;
    steps.push(Step::Put { v: Src::Var(0) })?;
    steps.push(Step::Copy {
        d: 1,
        s: Src::Word(4),
    })?;
    steps.push(Step::Put { v: Src::Var(1) })?;
    steps.push(Step::End)?;
    let lines = Items::of(vec![in alloc; 2, 3, 4, 5, 6]?);
    Ok(Proc {
        params: 0,
        vars: 2,
        steps,
        lines,
    })
}

/// The program of this procedure alone.
fn program(alloc: Global) -> Result<Program, AllocError> {
    let mut procs = Items::new(alloc);
    let main = two_words(alloc)?;
    procs.push(main)?;
    let init = Items::new(alloc);
    Ok(Program {
        procs,
        main: 0,
        init,
    })
}

/// The homes of both variables.
fn both(homes: &Homes) -> (Home, Home) {
    (homes.home(0, 0), homes.home(0, 1))
}

#[test]
fn a_home_register_is_taken_in_turn(rt: HostRuntime) -> Result<(), Fail> {
    let alloc = rt.alloc();
    let p = program(alloc)?;
    let f = Flow::of(alloc, &p)?;
    let live = Live::of(alloc, &p, &f)?;
    let least = assign(alloc, &p, &f, &live, 2)?;
    assert!(rt; both(&least) == (Home::Reg(0), Home::Reg(0)));
    let turns = in_turn(alloc, &p, &f, &live, 2)?;
    assert!(rt; both(&turns) == (Home::Reg(0), Home::Reg(1)));
    Ok(())
}
