//! Pages: fixed text with data between it.

ghost use Rattle.std.specs.Prelude.{◌≡◌, ◌++◌, IfOk, OnOk};
ghost use Rattle.tta_pages.specs.Pages.{code_script, joining_script, marks_script, picture_script};
ghost use Rattle.tta_pages.specs.Pages.{reading_script, run_head, run_script, run_styles, run_tail};
ghost use Rattle.tta_pages.specs.Pages.{shared_style, show_script, stages_head, stages_page};
ghost use Rattle.tta_pages.specs.Pages.{stages_script, stages_tail, states_script, words_script};

use crate::common_pieces::{
    push_code_readers, push_end, push_fit, push_follow, push_open_script, push_parts, push_passes,
    push_stages, push_style, push_tints,
};
use crate::joins_pieces::{push_all_joins, push_joins, push_moves, push_places};
use crate::run_code_pieces::{
    push_run_acts, push_run_code, push_run_program, push_run_source, push_run_variables,
    push_run_where,
};
use crate::run_picture_pieces::{
    push_run_picture_acts, push_run_picture_machine, push_run_picture_moves,
    push_run_picture_parts, push_run_picture_places,
};
use crate::run_pieces::{
    push_run_body, push_run_head as push_run_opening, push_run_looks, push_run_picture_looks,
    push_run_sections, push_run_style,
};
use crate::run_show_pieces::{
    push_run_buttons, push_run_cells, push_run_loads, push_run_playing, push_run_show,
    push_run_span, push_run_state,
};
use crate::run_states_pieces::{
    push_run_lines, push_run_moves, push_run_origins, push_run_reading, push_run_words,
};
use crate::stages_pieces::{
    push_stages_bands, push_stages_body, push_stages_cells, push_stages_columns,
    push_stages_head as push_stages_opening, push_stages_homes, push_stages_keys, push_stages_mark,
    push_stages_marks, push_stages_own_style,
};
use std::alloc::{AllocError, Global};

/// Puts the style that pages share.
#[tactic(auto, unfolding(crate::specs::Pages::shared_style))]
fn push_shared_style(out: &mut Vec<u8>) -> Result<(), AllocError>
    ensures { OnOk result (out.new.items ≡ out.old.items ++ shared_style) }
{
    push_style(out)?;
    push_tints(out)
}

/// Puts the script that reads the text of stages, and follows moves through the passes.
#[tactic(auto, unfolding(crate::specs::Pages::reading_script))]
fn push_reading_script(out: &mut Vec<u8>) -> Result<(), AllocError>
    ensures { OnOk result (out.new.items ≡ out.old.items ++ reading_script) }
{
    push_fit(out)?;
    push_parts(out)?;
    push_stages(out)?;
    push_code_readers(out)?;
    push_follow(out)?;
    push_passes(out)
}

/// Puts the script that joins what belongs together: lines, register code, moves and cycles.
#[tactic(auto, unfolding(crate::specs::Pages::joining_script))]
fn push_joining_script(out: &mut Vec<u8>) -> Result<(), AllocError>
    ensures { OnOk result (out.new.items ≡ out.old.items ++ joining_script) }
{
    push_places(out)?;
    push_joins(out)?;
    push_moves(out)?;
    push_all_joins(out)
}

/// Puts what stands before the text of stages.
#[tactic(auto, unfolding(crate::specs::Pages::stages_head))]
fn push_stages_head(out: &mut Vec<u8>) -> Result<(), AllocError>
    ensures { OnOk result (out.new.items ≡ out.old.items ++ stages_head) }
{
    push_stages_opening(out)?;
    push_shared_style(out)?;
    push_stages_own_style(out)?;
    push_stages_body(out)
}

/// Puts the script that shows stages.
#[tactic(auto, unfolding(crate::specs::Pages::stages_script))]
fn push_stages_script(out: &mut Vec<u8>) -> Result<(), AllocError>
    ensures { OnOk result (out.new.items ≡ out.old.items ++ stages_script) }
{
    push_stages_columns(out)?;
    push_stages_cells(out)?;
    push_stages_bands(out)?;
    push_stages_homes(out)
}

/// Puts the script that marks what became of a line.
#[tactic(auto, unfolding(crate::specs::Pages::marks_script))]
fn push_marks_script(out: &mut Vec<u8>) -> Result<(), AllocError>
    ensures { OnOk result (out.new.items ≡ out.old.items ++ marks_script) }
{
    push_stages_marks(out)?;
    push_stages_mark(out)?;
    push_stages_keys(out)
}

/// Puts what stands behind the text of stages.
#[tactic(auto, unfolding(crate::specs::Pages::stages_tail))]
fn push_stages_tail(out: &mut Vec<u8>) -> Result<(), AllocError>
    ensures { OnOk result (out.new.items ≡ out.old.items ++ stages_tail) }
{
    push_open_script(out)?;
    push_reading_script(out)?;
    push_joining_script(out)?;
    push_stages_script(out)?;
    push_marks_script(out)?;
    push_end(out)
}

/// Puts the style of a page that plays a run.
#[tactic(auto, unfolding(crate::specs::Pages::run_styles))]
fn push_run_styles(out: &mut Vec<u8>) -> Result<(), AllocError>
    ensures { OnOk result (out.new.items ≡ out.old.items ++ run_styles) }
{
    push_shared_style(out)?;
    push_run_style(out)?;
    push_run_looks(out)?;
    push_run_picture_looks(out)
}

/// Puts what stands before the text of the stages of the program that is run.
#[tactic(auto, unfolding(crate::specs::Pages::run_head))]
pub fn push_run_head(out: &mut Vec<u8>) -> Result<(), AllocError>
    ensures { OnOk result (out.new.items ≡ out.old.items ++ run_head) }
{
    push_run_opening(out)?;
    push_run_styles(out)?;
    push_run_body(out)?;
    push_run_sections(out)
}

/// Puts the script that reads the states of a run.
#[tactic(auto, unfolding(crate::specs::Pages::states_script))]
fn push_states_script(out: &mut Vec<u8>) -> Result<(), AllocError>
    ensures { OnOk result (out.new.items ≡ out.old.items ++ states_script) }
{
    push_run_reading(out)?;
    push_run_origins(out)?;
    push_run_lines(out)?;
    push_run_moves(out)?;
    push_run_words(out)
}

/// Puts the script that shows where a state is in the code and in the program.
#[tactic(auto, unfolding(crate::specs::Pages::code_script))]
fn push_code_script(out: &mut Vec<u8>) -> Result<(), AllocError>
    ensures { OnOk result (out.new.items ≡ out.old.items ++ code_script) }
{
    push_run_code(out)?;
    push_run_where(out)?;
    push_run_acts(out)?;
    push_run_program(out)?;
    push_run_source(out)?;
    push_run_variables(out)
}

/// Puts the script that draws the machine, and on it the moves of a state.
#[tactic(auto, unfolding(crate::specs::Pages::picture_script))]
fn push_picture_script(out: &mut Vec<u8>) -> Result<(), AllocError>
    ensures { OnOk result (out.new.items ≡ out.old.items ++ picture_script) }
{
    push_run_picture_places(out)?;
    push_run_picture_parts(out)?;
    push_run_picture_machine(out)?;
    push_run_picture_moves(out)?;
    push_run_picture_acts(out)
}

/// Puts the script that shows the words of a state.
#[tactic(auto, unfolding(crate::specs::Pages::words_script))]
fn push_words_script(out: &mut Vec<u8>) -> Result<(), AllocError>
    ensures { OnOk result (out.new.items ≡ out.old.items ++ words_script) }
{
    push_run_state(out)?;
    push_run_cells(out)?;
    push_run_loads(out)
}

/// Puts the script that shows a state, and goes from one to another.
#[tactic(auto, unfolding(crate::specs::Pages::show_script))]
fn push_show_script(out: &mut Vec<u8>) -> Result<(), AllocError>
    ensures { OnOk result (out.new.items ≡ out.old.items ++ show_script) }
{
    push_run_span(out)?;
    push_run_show(out)?;
    push_run_playing(out)?;
    push_run_buttons(out)
}

/// Puts the script of such a page alone.
#[tactic(auto, unfolding(crate::specs::Pages::run_script))]
fn push_run_script(out: &mut Vec<u8>) -> Result<(), AllocError>
    ensures { OnOk result (out.new.items ≡ out.old.items ++ run_script) }
{
    push_states_script(out)?;
    push_code_script(out)?;
    push_picture_script(out)?;
    push_words_script(out)?;
    push_show_script(out)
}

/// Puts what stands behind the data of a run.
#[tactic(auto, unfolding(crate::specs::Pages::run_tail))]
pub fn push_run_tail(out: &mut Vec<u8>) -> Result<(), AllocError>
    ensures { OnOk result (out.new.items ≡ out.old.items ++ run_tail) }
{
    push_open_script(out)?;
    push_reading_script(out)?;
    push_joining_script(out)?;
    push_run_script(out)?;
    push_end(out)
}

/// Puts the page that shows a text of stages.
#[tactic(auto, unfolding(crate::specs::Pages::stages_page))]
fn push_stages_page(out: &mut Vec<u8>, told: &[u8]) -> Result<(), AllocError>
    ensures { OnOk result (out.new.items ≡ out.old.items ++ stages_page told.now) }
{
    push_stages_head(out)?;
    out.extend_from_slice(told)?;
    push_stages_tail(out)
}

/// The page that shows a text of stages: one file of HTML, which needs nothing else. It fails only where
/// there is no memory.
pub fn page_of_stages(alloc: Global, told: &[u8]) -> Result<Vec<u8>, AllocError>
    ensures { IfOk result (λ v. v.items ≡ stages_page told.now) }
{
    let mut out = Vec::new(alloc);
    push_stages_page(&mut out, told)?;
    Ok(out)
}
