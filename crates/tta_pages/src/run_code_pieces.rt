//! The pieces of the fixed text of the script that shows the code and the program of a run.

ghost use Rattle.std.specs.Prelude.{◌≡◌, ◌++◌, OnOk};
ghost use Rattle.tta_pages.specs.RunCodePieces.{run_acts_text, run_code_text, run_program_text};
ghost use Rattle.tta_pages.specs.RunCodePieces.{run_source_text, run_variables_text};
ghost use Rattle.tta_pages.specs.RunCodePieces.{run_where_text};

use std::alloc::AllocError;

/// Puts the script that shows the code once, and then where a state is in it.
#[tactic(auto, unfolding(crate::specs::RunCodePieces::run_code_text))]
pub fn push_run_code(out: &mut Vec<u8>) -> Result<(), AllocError>
    ensures { OnOk result (out.new.items ≡ out.old.items ++ run_code_text) }
{
    out.extend_from_slice(
        b"const blockAt=address=>origins.find(b=>address>=b.address&&address<b.address+b.cycles);\n\
        const codeRows=new Map(),bySource=origins.length>0;\n\
        for(const [address,text] of code){\n\
        const [moves,long]=text.replace(/ ;$/,'').split(' ['),block=blockAt(address);\n\
        const cells=moves.split(' , ').map(move=>make('td','',make('span','',move),make('span','word')));\n\
        const row=make('tr',reached.has(address)?'':'unreached',make('td','dim',''+address),...cells,make('td','',long?'['+long:''));\n\
        if(bySource)row.prepend(make('td','dim',block?block.name:''));\n\
        if(block)row.classList.add(block.tint);\n\
        codeRows.set(address,row);\n\
        }\n\
        const heads=[...bySource?['block']:[],'at',...names.bus,'long'].map(name=>make('th','',name));\n\
        find('code').append(make('table','',make('tr','',...heads),...codeRows.values()));\n\
        ",
    )
}

/// Puts the script that shows where a state is in the code.
#[tactic(auto, unfolding(crate::specs::RunCodePieces::run_where_text))]
pub fn push_run_where(out: &mut Vec<u8>) -> Result<(), AllocError>
    ensures { OnOk result (out.new.items ≡ out.old.items ++ run_where_text) }
{
    out.extend_from_slice(
        b"let current=null;\n\
        function showCode(state){\n\
        if(current){current.id='';current.classList.remove('now');[...current.children].forEach(td=>td.classList.remove('active','passed'));}\n\
        document.querySelectorAll('.slot').forEach(row=>row.classList.remove('slot'));\n\
        current=codeRows.get(state.pc)||null;\n\
        if(!current)return;\n\
        current.id='now';\n\
        current.classList.add('now');\n\
        showActs(state);\n\
        middle(current,find('code'));\n\
        }\n\
        ",
    )
}

/// Puts the script that shows the moves of the current instruction, and brings an element to the middle of its part of the page.
#[tactic(auto, unfolding(crate::specs::RunCodePieces::run_acts_text))]
pub fn push_run_acts(out: &mut Vec<u8>) -> Result<(), AllocError>
    ensures { OnOk result (out.new.items ≡ out.old.items ++ run_acts_text) }
{
    out.extend_from_slice(
        b"function showActs(state){\n\
        const cells=[...current.children].slice(bySource?2:1,-1);\n\
        cells.forEach((td,k)=>{\n\
        const act=state.acts[k];\n\
        td.classList.add(act.look);\n\
        td.lastChild.textContent=act.told?shown(act.word):'';\n\
        });\n\
        if(state.jump)for(let k=0;k<state.jump.left;k++){\n\
        const row=codeRows.get(state.pc+k);\n\
        if(row)row.classList.add('slot');\n\
        }\n\
        }\n\
        function middle(element,part){\n\
        const box=element.getBoundingClientRect(),within=part.getBoundingClientRect();\n\
        part.scrollTop+=box.top+box.height/2-within.top-within.height/2;\n\
        }\n\
        ",
    )
}

/// Puts the script that shows the lines of the program once.
#[tactic(auto, unfolding(crate::specs::RunCodePieces::run_program_text))]
pub fn push_run_program(out: &mut Vec<u8>) -> Result<(), AllocError>
    ensures { OnOk result (out.new.items ≡ out.old.items ++ run_program_text) }
{
    out.extend_from_slice(
        b"const lineRows=new Map(),stepsOf=joined.blocks.flatMap(b=>b.steps.map(step=>({...step,name:b.proc+':'+step.line})));\n\
        const lineSteps=stepsOf.length?stepsOf:origins.flatMap(b=>b.lines.map(name=>({name,line:name.split(':')[1],text:'',place:''})));\n\
        for(const step of lineSteps){\n\
        const of=origins.find(b=>b.lines.includes(step.name));\n\
        lineRows.set(step.name,make('tr',of?of.tint:'',make('td','dim',of?of.name:''),make('td','dim',''+step.line),make('td','',step.text),make('td','dim',step.place)));\n\
        }\n\
        find('program').append(make('table','',...lineRows.values()));\n\
        document.body.classList.toggle('image',!bySource);\n\
        ",
    )
}

/// Puts the script that shows the lines of the current instruction: those of its moves, or all of its block.
#[tactic(auto, unfolding(crate::specs::RunCodePieces::run_source_text))]
pub fn push_run_source(out: &mut Vec<u8>) -> Result<(), AllocError>
    ensures { OnOk result (out.new.items ≡ out.old.items ++ run_source_text) }
{
    out.extend_from_slice(
        b"function showSource(state){\n\
        const block=blockAt(state.pc),own=block?block.lines:[],joint=block&&joined.named.get(block.name);\n\
        const slots=joint?joint.slots.filter(slot=>slot.address==state.pc&&slot.item):[];\n\
        const now=new Set(joint?slots.map(slot=>slot.item.line):own);\n\
        for(const [name,row] of lineRows)row.classList.toggle('line',now.has(name));\n\
        const first=lineRows.get([...now][0]||own[0]);\n\
        if(first)middle(first,find('program'));\n\
        }\n\
        ",
    )
}

/// Puts the script that shows the variables that are live in the current block, with the words of their homes.
#[tactic(auto, unfolding(crate::specs::RunCodePieces::run_variables_text))]
pub fn push_run_variables(out: &mut Vec<u8>) -> Result<(), AllocError>
    ensures { OnOk result (out.new.items ≡ out.old.items ++ run_variables_text) }
{
    out.extend_from_slice(
        b"const varWord=(state,v)=>state&&(v.home.startsWith('slot.')?state.kept.get(v.home)||'0':wordOf(state,v.home));\n\
        function showVariables(state,before){\n\
        const block=blockAt(state.pc),own=block?block.lives:[];\n\
        find('variables').replaceChildren(...own.map(v=>cell(v.name+' '+v.home,varWord(state,v),before&&varWord(before,v))),own.length?'':'none is live');\n\
        }\n\
        ",
    )
}
