//! The lines that a block of code stands for.

ghost use Rattle.std.specs.Prelude.{◌≡◌, ◌++◌, slice_index, OnOk};
ghost use Rattle.tta_stages.specs.ProgramText.{line_at};
ghost use Rattle.tta_origins.specs.Origins.{lines_text, part_lines, step_lines};

use crate::words::push_count;
use std::alloc::AllocError;
use tta_flow::Block;
use tta_lower::Part;
use tta_program::Program;

/// The line at a place of a list, 0 past the last.
fn line_in(lines: &[u32], at: usize) -> u32
    ensures { result ≡ slice_index lines.now at }
{
    match lines.get(at) {
        Some(line) => *line,
        None => 0,
    }
}

/// The line in which a step of a procedure stands, 0 where there is no such step.
fn line_at(p: &Program, owner: u32, at: usize) -> u32
    ensures { result ≡ line_at p.now owner at }
{
    match p.procs.as_slice().get(owner as usize) {
        Some(q) => line_in(q.lines.as_slice(), at),
        None => 0,
    }
}

/// Puts the lines of the steps of a block, each with a blank before it.
fn push_step_lines(out: &mut Vec<u8>, p: &Program, b: Block) -> Result<(), AllocError>
    ensures { OnOk result (out.new.items ≡ out.old.items ++ step_lines p.now b) }
{
    let count = (b.last as usize + 1).saturating_sub(b.first as usize);
    for i in 0..count {
        let line = line_at(p, b.owner, b.first as usize + i);
        push_count(out, b" ", u128::from(line))?;
    }
    Ok(())
}

/// Puts the lines that a part stands for, each with a blank before it.
fn push_part_lines(out: &mut Vec<u8>, p: &Program, part: Part) -> Result<(), AllocError>
    ensures { OnOk result (out.new.items ≡ out.old.items ++ part_lines p.now part) }
{
    match part {
        Part::Entry(_) => Ok(()),
        Part::Steps(b) => push_step_lines(out, p, b),
        Part::Returned(b, _, _) => {
            let line = line_at(p, b.owner, b.last as usize);
            push_count(out, b" ", u128::from(line))
        }
    }
}

/// Puts the lines that a part stands for, as a line.
#[tactic(auto, unfolding(crate::specs::Origins::lines_text))]
pub fn push_lines(out: &mut Vec<u8>, p: &Program, part: Part) -> Result<(), AllocError>
    ensures { OnOk result (out.new.items ≡ out.old.items ++ lines_text p.now part) }
{
    out.extend_from_slice(b"lines")?;
    push_part_lines(out, p, part)?;
    out.extend_from_slice(b"\n")
}
