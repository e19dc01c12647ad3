//! The picture of code.

ghost use Rattle.std.specs.Prelude.{◌≡◌, ◌≤◌, ◌++◌, length, All, IfOk, OnOk};
ghost use Rattle.std.specs.List.{flat_map};
ghost use Rattle.tta_ops.specs.Set.{stated};
ghost use Rattle.tta_code.specs.Legal.{IsLegalCode};
ghost use Rattle.tta_draw.specs.CodePicture.{picture_of_code, picture_in, body_text, remark_text};
ghost use Rattle.tta_draw.specs.CodePicture.{remarks_text, bus_column_text, bus_columns_text};
ghost use Rattle.tta_draw.specs.CodePicture.{long_column_text};

use crate::cells::{push_grounds, push_rows};
use crate::code_places::{
    REMARK_X, code_height, code_width, column_x, columns_x, long_x, name_spot, row_spot,
};
use crate::columns::push_columns;
use crate::guides::push_guides;
use crate::legends::{push_code_legend, push_remark_legend};
use crate::remark::Remark;
use crate::sizes::{Sizes, sizes_of};
use crate::svg::{push_head, push_label, push_tail};
use std::alloc::{AllocError, Global};
use tta_arch::{Bus, Machine};
use tta_code::{Code, Instruction};
use tta_ops::UnitSet;

/// The instructions of code that a machine can carry out.
fn words_of<'c>(m: &Machine, code: &'c Code) -> &'c [Instruction]
    requires { IsLegalCode m.now code.now }
    ensures all { result.now ≡ code.now.words }
    ensures few { length result.now ≤ 65536 }
    ensures slots { All (λ i. length i.moves ≤ 16) result.now }
{
    // A machine has at most 65,536 addresses, and legal code no more instructions.
    let fits = code.words.len() <= m.addresses() as usize;
    prove!(fits);
    code.words.as_slice()
}

/// Puts the name of a bus.
fn push_bus_column(out: &mut Vec<u8>, sizes: Sizes, bus: usize, b: &Bus) -> Result<(), AllocError>
    requires { bus ≤ 16 }
    ensures { OnOk result (out.new.items ≡ out.old.items ++ bus_column_text sizes bus b.now) }
{
    let place = name_spot(column_x(sizes, bus));
    push_label(out, b"title", place, b.name.as_bytes())
}

/// Puts the names of buses.
fn push_bus_columns(out: &mut Vec<u8>, sizes: Sizes, buses: &[Bus]) -> Result<(), AllocError>
    requires { length buses.now ≤ 16 }
    ensures { OnOk result (out.new.items ≡ out.old.items ++ bus_columns_text sizes buses.now) }
{
    for (bus, b) in buses.iter().enumerate() {
        push_bus_column(out, sizes, bus, b)?;
    }
    Ok(())
}

/// Puts the name of the column of long immediates.
#[tactic(auto, unfolding(crate::specs::CodePicture::long_column_text))]
fn push_long_column(out: &mut Vec<u8>, m: &Machine, sizes: Sizes) -> Result<(), AllocError>
    ensures { OnOk result (out.new.items ≡ out.old.items ++ long_column_text m.now sizes) }
{
    push_label(
        out,
        b"title",
        name_spot(long_x(m, sizes)),
        b"long immediate",
    )
}

/// Puts a remark on a row.
fn push_remark(out: &mut Vec<u8>, r: &Remark) -> Result<(), AllocError>
    ensures { OnOk result (out.new.items ≡ out.old.items ++ remark_text r.now) }
{
    push_label(out, b"remark", row_spot(REMARK_X, r.row), r.text.as_bytes())
}

/// Puts remarks.
fn push_all_remarks(out: &mut Vec<u8>, remarks: &[Remark]) -> Result<(), AllocError>
    ensures { OnOk result (out.new.items ≡ out.old.items ++ flat_map remark_text remarks.now) }
{
    for r in remarks {
        push_remark(out, r)?;
    }
    Ok(())
}

/// Puts remarks, if there are some, with what they mean.
fn push_remarks(out: &mut Vec<u8>, remarks: &[Remark]) -> Result<(), AllocError>
    ensures { OnOk result (out.new.items ≡ out.old.items ++ remarks_text remarks.now) }
{
    match remarks {
        [] => Ok(()),
        _ => {
            push_remark_legend(out)?;
            push_all_remarks(out, remarks)
        }
    }
}

/// Puts the instructions: the grounds of delay slots, the rows over them, and over these the results and
/// the labels and arrows of jumps.
#[tactic(auto, unfolding(crate::specs::CodePicture::body_text))]
fn push_body(
    out: &mut Vec<u8>,
    alloc: Global,
    m: &Machine,
    set: &UnitSet,
    sizes: Sizes,
    words: &[Instruction],
) -> Result<(), AllocError>
    requires few { length words.now ≤ 65536 }
    requires slots { All (λ i. length i.moves ≤ 16) words.now }
    ensures { OnOk result (out.new.items ≡ out.old.items
        ++ body_text (stated unit_meaning set.now) m.now sizes words.now) }
{
    push_grounds(out, m, sizes, words)?;
    push_rows(out, set, m, sizes, words)?;
    push_columns(
        out,
        alloc,
        m,
        words,
        columns_x(m, sizes),
        m.units.as_slice(),
    )?;
    push_guides(out, alloc, m, words)
}

/// The picture of code in columns of these sizes.
#[tactic(auto, unfolding(crate::specs::CodePicture::picture_in))]
fn draw_in(
    alloc: Global,
    m: &Machine,
    set: &UnitSet,
    sizes: Sizes,
    words: &[Instruction],
    remarks: &[Remark],
) -> Result<Vec<u8>, AllocError>
    requires few { length words.now ≤ 65536 }
    requires slots { All (λ i. length i.moves ≤ 16) words.now }
    ensures { IfOk result (λ v. v.items
        ≡ picture_in (stated unit_meaning set.now) m.now sizes words.now remarks.now) }
{
    let mut out = Vec::new(alloc);
    push_head(&mut out, code_width(m, sizes), code_height(words.len()))?;
    push_code_legend(&mut out)?;
    push_bus_columns(&mut out, sizes, m.buses.as_slice())?;
    push_long_column(&mut out, m, sizes)?;
    push_body(&mut out, alloc, m, set, sizes, words)?;
    push_remarks(&mut out, remarks)?;
    push_tail(&mut out)?;
    Ok(out)
}

/// The picture of code for a machine, as SVG text, with remarks on rows: a row for each instruction, with
/// a cell for each move in the column of its bus, and a bar for each result that is on the way, which
/// assumes that the instructions are carried out in order. The delay slots of jumps, calls and halts are
/// marked. Arrows lead from the last delay slot of jumps and calls to their targets, as far as those are
/// constants. It fails only where there is no memory.
#[tactic(auto, unfolding(crate::specs::CodePicture::picture_of_code))]
pub fn draw_code(
    alloc: Global,
    m: &Machine,
    set: &UnitSet,
    code: &Code,
    remarks: &[Remark],
) -> Result<Vec<u8>, AllocError>
    requires { IsLegalCode m.now code.now }
    ensures { IfOk result (λ v.
        v.items ≡ picture_of_code (stated unit_meaning set.now) m.now code.now remarks.now) }
{
    let words = words_of(m, code);
    let sizes = sizes_of(alloc, set, m, words, remarks)?;
    draw_in(alloc, m, set, sizes, words, remarks)
}
