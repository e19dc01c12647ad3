//! The code of a program of two procedures, which needs eight words of the frame space.

ghost use Rattle.std.specs.Prelude.{◌≡◌, ◌∷◌, [], IfOk, Some};
ghost use Rattle.tta_program.specs.declared.operand.Src.{Src};
ghost use Rattle.tta_program.specs.declared.step.Step.TheVariants.{Invoke};
ghost use Rattle.tta_lower.specs.Squares.{square, main};

use std::alloc::{AllocError, Global};
use std::test::Fail;
use tta_alloc::{Homes, assign};
use tta_flow::{Flow, Live};
use tta_list::Items;
use tta_lower::{LowerError, lower};
use tta_ops::OpId;
use tta_program::{Args, Proc, Program, Src, Step};

/// `proc sq x`, `y = mul x x`, `return y`, `end`
fn square_proc(alloc: Global) -> Result<Proc, AllocError>
    ensures { IfOk result (λ q. q ≡ square) }
{
    let mut steps = Items::new(alloc);
    steps.push(Step::Apply {
        d: 1,
        op: OpId(7),
        a: Src::Var(0),
        b: Src::Var(0),
    })?;
    steps.push(Step::Return {
        s: Some(Src::Var(1)),
    })?;
    steps.push(Step::End)?;
    let lines = Items::of(vec![in alloc; 2, 3, 4]?);
    Ok(Proc {
        params: 1,
        vars: 2,
        steps,
        lines,
    })
}

/// A call of the first procedure with one argument.
fn call(alloc: Global, d: u32, s: Src) -> Result<Step, AllocError>
    ensures { IfOk result (λ call. call ≡ Invoke (Some d) 0 (s ∷ [])) }
{
    let mut args = Args::new(alloc);
    args.push(s)?;
    Ok(Step::Invoke {
        d: Some(d),
        callee: 0,
        args,
    })
}

/// `proc main`, `a = 3`, `b = call sq a`, `c = call sq 5`, `d = add a b`, `d = add d c`, `out d`,
/// `halt`, `end`
fn main_proc(alloc: Global) -> Result<Proc, AllocError>
    ensures { IfOk result (λ q. q ≡ main) }
{
    let mut steps = Items::new(alloc);
    steps.push(Step::Copy {
        d: 0,
        s: Src::Word(3),
    })?;
    let first = call(alloc, 1, Src::Var(0))?;
    steps.push(first)?;
    let second = call(alloc, 2, Src::Word(5))?;
    steps.push(second)?;
    steps.push(Step::Apply {
        d: 3,
        op: OpId(0),
        a: Src::Var(0),
        b: Src::Var(1),
    })?;
    steps.push(Step::Apply {
        d: 3,
        op: OpId(0),
        a: Src::Var(3),
        b: Src::Var(2),
    })?;
    steps.push(Step::Put { v: Src::Var(3) })?;
    steps.push(Step::Halt)?;
    steps.push(Step::End)?;
    let lines = Items::of(vec![in alloc; 6, 7, 8, 9, 10, 11, 12, 13]?);
    Ok(Proc {
        params: 0,
        vars: 4,
        steps,
        lines,
    })
}

/// The program of both.
fn squares(alloc: Global) -> Result<Program, AllocError> {
    let mut procs = Items::new(alloc);
    let square = square_proc(alloc)?;
    procs.push(square)?;
    let main = main_proc(alloc)?;
    procs.push(main)?;
    let init = Items::new(alloc);
    Ok(Program {
        procs,
        main: 1,
        init,
    })
}

/// How many blocks the code has for so many frame words, or why there is none.
fn blocks(alloc: Global, frame_words: u32) -> Result<usize, LowerError> {
    let p = squares(alloc)?;
    let f = Flow::of(alloc, &p)?;
    let live = Live::of(alloc, &p, &f)?;
    let homes = assign(alloc, &p, &f, &live, 2)?;
    let code = lower(alloc, &p, &f, &live, &homes, frame_words)?;
    Ok(code.blocks.len())
}

#[test]
fn a_program_fits_its_need_of_frame_words(rt: HostRuntime) -> Result<(), Fail> {
    assert!(rt; blocks(rt.alloc(), 8) == Ok(7));
    Ok(())
}

#[test]
fn a_program_needs_its_frame_words(rt: HostRuntime) -> Result<(), Fail> {
    assert!(rt; blocks(rt.alloc(), 7) == Err(LowerError::FrameFull { need: 8, have: 7 }));
    Ok(())
}
