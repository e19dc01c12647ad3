//! The pieces of the fixed text of a page of the stages of a program.

ghost use Rattle.std.specs.Prelude.{◌≡◌, ◌++◌, OnOk};
ghost use Rattle.tta_pages.specs.StagesPieces.{stages_bands_text, stages_body_text};
ghost use Rattle.tta_pages.specs.StagesPieces.{stages_cells_text, stages_columns_text};
ghost use Rattle.tta_pages.specs.StagesPieces.{stages_head_text, stages_homes_text};
ghost use Rattle.tta_pages.specs.StagesPieces.{stages_keys_text, stages_mark_text};
ghost use Rattle.tta_pages.specs.StagesPieces.{stages_marks_text, stages_own_style_text};

use std::alloc::AllocError;

/// Puts the head of a page of stages, up to its style.
#[tactic(auto, unfolding(crate::specs::StagesPieces::stages_head_text))]
pub fn push_stages_head(out: &mut Vec<u8>) -> Result<(), AllocError>
    ensures { OnOk result (out.new.items ≡ out.old.items ++ stages_head_text) }
{
    out.extend_from_slice(
        b"<!DOCTYPE html>\n\
        <html lang='en'>\n\
        <head><meta charset='utf-8'><title>The stages of a program</title>\n\
        <style>\n\
        ",
    )
}

/// Puts the style of such a page alone.
#[tactic(auto, unfolding(crate::specs::StagesPieces::stages_own_style_text))]
pub fn push_stages_own_style(out: &mut Vec<u8>) -> Result<(), AllocError>
    ensures { OnOk result (out.new.items ≡ out.old.items ++ stages_own_style_text) }
{
    out.extend_from_slice(
        b"#stages{width:100%}\n\
        #stages>tr>td{padding:.15rem .3rem;border-bottom:2px solid #43505e}\n\
        #stages>tr>th{padding:.2rem .5rem;position:sticky;top:0;background:#fff;border-bottom:2px solid #43505e;z-index:1}\n\
        #stages td td{padding:0 .3rem}\n\
        .pick{cursor:pointer}\n\
        .slots{white-space:normal}.slot{display:inline-block;white-space:pre;padding-right:1rem}\n\
        #stages>tr>td:last-child{width:34%}\n\
        #homes{padding:.3rem .8rem;max-height:30vh;overflow:auto}#homes table{width:100%}\n\
        #homes td:first-child{width:1%}#homes .span{position:relative;width:100%;height:1.5rem;background:#f2f5f8;border-bottom:1px solid #fff}\n\
        #told{position:sticky;bottom:0;min-height:2rem;white-space:pre-wrap}\n\
        ",
    )
}

/// Puts the body of such a page, up to where the text of stages begins.
#[tactic(auto, unfolding(crate::specs::StagesPieces::stages_body_text))]
pub fn push_stages_body(out: &mut Vec<u8>) -> Result<(), AllocError>
    ensures { OnOk result (out.new.items ≡ out.old.items ++ stages_body_text) }
{
    out.extend_from_slice(
        b"</style></head>\n\
        <body>\n\
        <header><h1>The stages of a program</h1><button id='back'>line back</button><button id='on'>next line</button><button id='bars'>homes</button>\n\
        <span>click a line, or <kbd>j</kbd> <kbd>k</kbd> next and last, <kbd>Esc</kbd> none, <kbd>h</kbd> homes, <kbd>+</kbd> <kbd>-</kbd> size</span></header>\n\
        <section id='homes'></section>\n\
        <table id='stages'></table>\n\
        <footer id='told'></footer>\n\
        <script type='text/plain' id='source'>\n\
        ",
    )
}

/// Puts the script that shows the columns of a block: its lines, its register code, its moves with what the passes made, and its cycles.
#[tactic(auto, unfolding(crate::specs::StagesPieces::stages_columns_text))]
pub fn push_stages_columns(out: &mut Vec<u8>) -> Result<(), AllocError>
    ensures { OnOk result (out.new.items ≡ out.old.items ++ stages_columns_text) }
{
    out.extend_from_slice(
        b"const all=joinAll(stagesOf(find('source').textContent)),picks=[];\n\
        function pick(element,line,item){\n\
        element.classList.add('pick');\n\
        picks.push({element,line,item});\n\
        element.onclick=()=>mark(line,item);\n\
        return element;\n\
        }\n\
        const rows=list=>make('table','',...list.map(cells=>make('tr','',...cells)));\n\
        const lineRow=(block,step)=>[make('td','dim',''+step.line),pick(make('td','',step.text),block.proc+':'+step.line),make('td','dim',step.place)];\n\
        ",
    )
}

/// Puts the script that shows a move with what the passes made of it, and the moves of a cycle.
#[tactic(auto, unfolding(crate::specs::StagesPieces::stages_cells_text))]
pub fn push_stages_cells(out: &mut Vec<u8>) -> Result<(), AllocError>
    ensures { OnOk result (out.new.items ≡ out.old.items ++ stages_cells_text) }
{
    out.extend_from_slice(
        b"const why={'after bypass':'bypassed','after share':'shared: the port has it','after dead':'dropped: nothing reads it'};\n\
        function fate(item){\n\
        const told=item.was.map(([what,text])=>(why[what]||what)+': '+text);\n\
        return [...told,...item.gone?[why[item.gone]||item.gone]:[]].join(newline);\n\
        }\n\
        function moveRow(item){\n\
        const text=item.text||item.was[0][1];\n\
        return [pick(make('td',item.gone?'gone':'',text),item.line,item),pick(make('td','why',fate(item)),item.line,item)];\n\
        }\n\
        function cycleRow(block,row){\n\
        const slots=block.slots.filter(slot=>slot.address==row.address).map(slot=>pick(make('span','slot',slot.text),slot.item&&slot.item.line,slot.item));\n\
        return [make('td','dim',''+row.address),make('td','slots',...slots)];\n\
        }\n\
        ",
    )
}

/// Puts the script that shows all blocks, a band of a tint each.
#[tactic(auto, unfolding(crate::specs::StagesPieces::stages_bands_text))]
pub fn push_stages_bands(out: &mut Vec<u8>) -> Result<(), AllocError>
    ensures { OnOk result (out.new.items ≡ out.old.items ++ stages_bands_text) }
{
    out.extend_from_slice(
        b"function band(block){\n\
        const head=make('div','why',block.name+': '+block.origin.replace(/^steps of [^ ]+ /,'').replace(/ ([0-9]+)$/,(m,k)=>block.kind=='steps'?' to '+k:m));\n\
        const ends=block.own.length?rows(block.own.map(step=>lineRow(block,step))):'';\n\
        const code=rows(block.code.map(step=>[pick(make('td','',step.text),step.line)]));\n\
        const live=make('div','dim','then live: '+(block.live.join(' ')||'none'));\n\
        const cycles=make('div','dim',block.cycles+(block.cycles==1?' cycle':' cycles')+' from address '+block.address);\n\
        const cells=[[head,ends],[code,live],[rows(block.items.map(moveRow))],[rows(block.rows.map(row=>cycleRow(block,row))),cycles]];\n\
        return make('tr',block.tint,...cells.map(inner=>make('td','',...inner)));\n\
        }\n\
        const titles=['program','register code','moves, and what the passes made of them','cycles'];\n\
        find('stages').append(make('tr','',...titles.map(title=>make('th','',title))),...all.code.map(band));\n\
        ",
    )
}

/// Puts the script that shows the intervals of homes as bars over the lines of a procedure.
#[tactic(auto, unfolding(crate::specs::StagesPieces::stages_homes_text))]
pub fn push_stages_homes(out: &mut Vec<u8>) -> Result<(), AllocError>
    ensures { OnOk result (out.new.items ≡ out.old.items ++ stages_homes_text) }
{
    out.extend_from_slice(
        b"function homesOf(proc){\n\
        const own=all.variables.filter(v=>v.proc==proc&&v.last!==undefined),blocks=all.blocks.filter(b=>b.proc==proc);\n\
        const first=Math.min(...blocks.map(b=>b.first))-1,width=100/(Math.max(...blocks.map(b=>b.last))-first+1);\n\
        const bar=(v,k)=>{\n\
        const element=make('div','bar tint'+k%6,v.name+' '+v.span),from=v.first?v.first-first:0,to=v.last?v.last-first:0;\n\
        element.style.left=from*width+'%';\n\
        element.style.width=(to-from+1)*width+'%';\n\
        return element;\n\
        };\n\
        const homes=[...new Set(own.map(v=>v.home))];\n\
        const row=home=>[make('td','',home),make('td','',make('div','span',...own.map((v,k)=>v.home==home?bar(v,k):'')))];\n\
        return [make('h2','','homes of '+proc+', over its lines'),rows(homes.map(row))];\n\
        }\n\
        find('homes').append(...[...new Set(all.variables.map(v=>v.proc))].flatMap(homesOf));\n\
        ",
    )
}

/// Puts the script that marks what became of a line, and tells it.
#[tactic(auto, unfolding(crate::specs::StagesPieces::stages_marks_text))]
pub fn push_stages_marks(out: &mut Vec<u8>) -> Result<(), AllocError>
    ensures { OnOk result (out.new.items ≡ out.old.items ++ stages_marks_text) }
{
    out.extend_from_slice(
        b"const lines=[...new Set(picks.map(p=>p.line).filter(line=>line))];\n\
        let at=-1;\n\
        const cyclesOf=slots=>{\n\
        const at=[...new Set(slots.map(slot=>slot.address))].sort((a,b)=>a-b);\n\
        return at.length?(at.length>1?'addresses ':'address ')+at.join(' '):'no cycle';\n\
        };\n\
        function toldOf(line,item){\n\
        if(item)return [item.text,...fate(item).split(newline),item.slot?'at address '+item.slot.address:''].filter(text=>text).join(' | ');\n\
        const items=all.code.flatMap(b=>b.items).filter(i=>i.line==line),gone=items.filter(i=>i.gone).length;\n\
        return line.replace(':',' line ')+': '+items.length+' moves, '+gone+' left out, '+cyclesOf(items.filter(i=>i.slot).map(i=>i.slot));\n\
        }\n\
        ",
    )
}

/// Puts the script that marks a line, and a move with the start or the reads of its result.
#[tactic(auto, unfolding(crate::specs::StagesPieces::stages_mark_text))]
pub fn push_stages_mark(out: &mut Vec<u8>) -> Result<(), AllocError>
    ensures { OnOk result (out.new.items ≡ out.old.items ++ stages_mark_text) }
{
    out.extend_from_slice(
        b"function mark(line,item){\n\
        at=lines.indexOf(line);\n\
        const result=item&&(item.starts||item.result);\n\
        for(const p of picks){\n\
        p.element.classList.toggle('line',!!line&&p.line==line);\n\
        p.element.classList.toggle('item',!!item&&p.item==item);\n\
        p.element.classList.toggle('result',!!result&&!!p.item&&p.item!=item&&(p.item.starts==result||p.item.result==result));\n\
        }\n\
        find('told').textContent=line?toldOf(line,item):'';\n\
        }\n\
        ",
    )
}

/// Puts the script of keys and buttons of such a page, and its end.
#[tactic(auto, unfolding(crate::specs::StagesPieces::stages_keys_text))]
pub fn push_stages_keys(out: &mut Vec<u8>) -> Result<(), AllocError>
    ensures { OnOk result (out.new.items ≡ out.old.items ++ stages_keys_text) }
{
    out.extend_from_slice(
        b"function go(by){\n\
        const to=Math.max(0,Math.min(lines.length-1,at+by)),first=picks.find(p=>p.line==lines[to]);\n\
        mark(lines[to]);\n\
        if(first)first.element.scrollIntoView({block:'center'});\n\
        }\n\
        function bars(){find('homes').hidden=!find('homes').hidden;}\n\
        find('back').onclick=()=>go(-1);\n\
        find('on').onclick=()=>go(1);\n\
        find('bars').onclick=bars;\n\
        onKeys({j:()=>go(1),k:()=>go(-1),Escape:()=>mark(),h:bars,'+':()=>resize(1.1),'-':()=>resize(1/1.1)});\n\
        ",
    )
}
