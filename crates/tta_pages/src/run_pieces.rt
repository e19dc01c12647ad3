//! The pieces of the fixed text of a page that plays a run.

ghost use Rattle.std.specs.Prelude.{◌≡◌, ◌++◌, OnOk};
ghost use Rattle.tta_pages.specs.RunPieces.{run_body_text, run_head_text, run_looks_text};
ghost use Rattle.tta_pages.specs.RunPieces.{run_middle_text, run_picture_looks_text};
ghost use Rattle.tta_pages.specs.RunPieces.{run_sections_text, run_style_text};

use std::alloc::AllocError;

/// Puts the head of a page that plays a run, up to its style.
#[tactic(auto, unfolding(crate::specs::RunPieces::run_head_text))]
pub fn push_run_head(out: &mut Vec<u8>) -> Result<(), AllocError>
    ensures { OnOk result (out.new.items ≡ out.old.items ++ run_head_text) }
{
    out.extend_from_slice(
        b"<!DOCTYPE html>\n\
        <html lang='en'>\n\
        <head><meta charset='utf-8'><title>A run, cycle by cycle</title>\n\
        <style>\n\
        ",
    )
}

/// Puts where the parts of such a page are.
#[tactic(auto, unfolding(crate::specs::RunPieces::run_style_text))]
pub fn push_run_style(out: &mut Vec<u8>) -> Result<(), AllocError>
    ensures { OnOk result (out.new.items ≡ out.old.items ++ run_style_text) }
{
    out.extend_from_slice(
        b"body{height:100vh;display:flex;flex-direction:column;overflow:hidden}\n\
        main{flex:1;min-height:0;display:grid;grid-template-columns:minmax(0,8fr) minmax(0,5fr);grid-template-rows:minmax(0,1fr) minmax(0,1fr)}\n\
        section{overflow:auto;padding:.3rem .8rem;border:1px solid #c3ccd6}\n\
        #code_part,#source_part,#picture_part{display:flex;flex-direction:column;overflow:hidden}\n\
        #code,#program{overflow:auto;flex:1}#variables{overflow:auto;max-height:40%}\n\
        #picture{flex:1;min-height:0}#picture svg{width:100%;height:100%;display:block}\n\
        .image #source_part{display:none}.image #code_part{grid-column:1/3}\n\
        #output{min-height:1.4rem}#pair{display:grid;grid-template-columns:auto minmax(9rem,1fr);gap:1rem}#slider{width:12rem}#to{width:5rem}#where{font-weight:700}\n\
        th{position:sticky;top:0;background:#fff}\n\
        ",
    )
}

/// Puts the style of the current instruction and of words.
#[tactic(auto, unfolding(crate::specs::RunPieces::run_looks_text))]
pub fn push_run_looks(out: &mut Vec<u8>) -> Result<(), AllocError>
    ensures { OnOk result (out.new.items ≡ out.old.items ++ run_looks_text) }
{
    out.extend_from_slice(
        b".now td{background:#fff;border-top:2px solid #1d4ed8;border-bottom:2px solid #1d4ed8}\n\
        .now .active{background:#1d4ed8;color:#fff;font-weight:700}\n\
        .now .passed{text-decoration:line-through;color:#5b6673}\n\
        .slot{border-bottom:2px dotted #1d4ed8}\n\
        .unreached td{color:#5b6673;font-style:italic}\n\
        .word{display:none}.active .word{display:inline;font-weight:400}.active .word:not(:empty)::before{content:' = '}\n\
        .cell{display:inline-block;padding:0 .4rem;margin:0 .3rem .15rem 0;border:1px solid #c3ccd6}\n\
        .changed{background:#fde6c4;border-color:#b45309;font-weight:700}\n\
        .due{display:inline-block;height:.6rem;background:#1d4ed8;margin:0 .6rem 0 .3rem}\n\
        ",
    )
}

/// Puts the style of the picture of the machine.
#[tactic(auto, unfolding(crate::specs::RunPieces::run_picture_looks_text))]
pub fn push_run_picture_looks(out: &mut Vec<u8>) -> Result<(), AllocError>
    ensures { OnOk result (out.new.items ≡ out.old.items ++ run_picture_looks_text) }
{
    out.extend_from_slice(
        b"#picture text{font-size:13px;fill:#16202c}\n\
        #picture .part{fill:#e9eef4;stroke:#43505e}#picture .part.acts{fill:#d6ecfa;stroke:#1d4ed8;stroke-width:2.5}\n\
        #picture .bus{stroke:#43505e;stroke-width:3}#picture .stub{stroke:#a3adb8}#picture .joint{fill:#66727f}\n\
        #picture .carries{fill:none;stroke:#1d4ed8;stroke-width:5;stroke-linejoin:round}\n\
        #picture .stops{fill:none;stroke:#8a949f;stroke-width:2;stroke-dasharray:6 5}\n\
        #picture .carried{font-weight:700;fill:#1d4ed8;stroke:#fff;stroke-width:5;paint-order:stroke}\n\
        #picture .stopped{fill:#5b6673;stroke:#fff;stroke-width:5;paint-order:stroke;text-decoration:line-through}\n\
        #picture .port,#picture .does{font-size:11px;fill:#43505e}#picture .does{font-weight:700;fill:#1d4ed8}\n\
        ",
    )
}

/// Puts the head of such a page's body, with buttons and slider.
#[tactic(auto, unfolding(crate::specs::RunPieces::run_body_text))]
pub fn push_run_body(out: &mut Vec<u8>) -> Result<(), AllocError>
    ensures { OnOk result (out.new.items ≡ out.old.items ++ run_body_text) }
{
    out.extend_from_slice(
        b"</style></head>\n\
        <body>\n\
        <header><h1 id='title'>A run, cycle by cycle</h1><span id='span'></span><br><button id='back'>back</button><button id='forward'>forward</button><button id='play'>play</button>\n\
        <input id='slider' type='range' min='0' value='0'><label>cycle <input id='to' inputmode='numeric'></label>\n\
        <button id='form'>decimal</button><button id='speed'>2 a second</button><span id='where'></span> <span id='more'></span></header>\n\
        ",
    )
}

/// Puts the parts of the page, up to where the text of stages begins.
#[tactic(auto, unfolding(crate::specs::RunPieces::run_sections_text))]
pub fn push_run_sections(out: &mut Vec<u8>) -> Result<(), AllocError>
    ensures { OnOk result (out.new.items ≡ out.old.items ++ run_sections_text) }
{
    out.extend_from_slice(
        b"<main>\n\
        <section id='code_part'><h2>code</h2><div id='code'></div></section>\n\
        <section id='source_part'><h2>variables</h2><div id='variables'></div><h2>program</h2><div id='program'></div></section>\n\
        <section id='picture_part'><h2>machine</h2><div id='picture'></div></section>\n\
        <section id='state_part'><h2>output</h2><div id='output'></div>\n\
        <div id='pair'><div><h2>units</h2><div id='flight'></div></div><div><h2>memory</h2><div id='reads'></div><div id='memory'></div></div></div>\n\
        <h2>registers</h2><div id='registers'></div></section>\n\
        </main>\n\
        <footer><kbd>Right</kbd> <kbd>Left</kbd> a cycle, <kbd>Home</kbd> <kbd>End</kbd>, <kbd>p</kbd> play, <kbd>f</kbd> form of words,\n\
        <kbd>s</kbd> speed, <kbd>g</kbd> go to a cycle, <kbd>+</kbd> <kbd>-</kbd> size</footer>\n\
        <script type='text/plain' id='source'>\n\
        ",
    )
}

/// Puts the end of the text of stages, and where the data begin.
#[tactic(auto, unfolding(crate::specs::RunPieces::run_middle_text))]
pub fn push_run_middle(out: &mut Vec<u8>) -> Result<(), AllocError>
    ensures { OnOk result (out.new.items ≡ out.old.items ++ run_middle_text) }
{
    out.extend_from_slice(
        b"</script>\n\
        <script type='text/plain' id='data'>\n\
        ",
    )
}
