//! The pieces of the fixed text of the script that shows the states of a run.

ghost use Rattle.std.specs.Prelude.{◌≡◌, ◌++◌, OnOk};
ghost use Rattle.tta_pages.specs.RunShowPieces.{run_buttons_text, run_cells_text, run_loads_text};
ghost use Rattle.tta_pages.specs.RunShowPieces.{run_playing_text, run_show_text, run_span_text};
ghost use Rattle.tta_pages.specs.RunShowPieces.{run_state_text};

use std::alloc::AllocError;

/// Puts the script that shows units with the results under way, registers, memory and output.
#[tactic(auto, unfolding(crate::specs::RunShowPieces::run_state_text))]
pub fn push_run_state(out: &mut Vec<u8>) -> Result<(), AllocError>
    ensures { OnOk result (out.new.items ≡ out.old.items ++ run_state_text) }
{
    out.extend_from_slice(
        b"function bars(row){\n\
        return row.flatMap((word,delay)=>{\n\
        if(!delay||word=='-')return [];\n\
        const bar=make('span','due');\n\
        bar.style.width=delay+'rem';\n\
        return [shown(word)+' in '+delay,bar];\n\
        });\n\
        }\n\
        function flight(state){\n\
        const ports=state.units.map((row,unit)=>make('tr','',make('td','',names.unit[unit]),make('td','',shown(state.kept.get(names.unit[unit]+'.o')||'-')),\n\
        make('td','',shown(row[0])),make('td','',...bars(row))));\n\
        return make('table','',make('tr','',...['unit','operand','result','under way'].map(name=>make('th','',name))),...ports);\n\
        }\n\
        ",
    )
}

/// Puts the script that shows registers and memory.
#[tactic(auto, unfolding(crate::specs::RunShowPieces::run_cells_text))]
pub fn push_run_cells(out: &mut Vec<u8>) -> Result<(), AllocError>
    ensures { OnOk result (out.new.items ≡ out.old.items ++ run_cells_text) }
{
    out.extend_from_slice(
        b"function registers(state,before){\n\
        const files=state.files.map((row,file)=>make('div','',make('b','',names.file[file]+' '),\n\
        ...row.map((word,index)=>cell(index,word,before&&before.files[file][index]))));\n\
        const others=names.imm.flatMap((name,k)=>state.imms[k].map((word,index)=>cell(name+'.'+index,word,before&&before.imms[k][index])));\n\
        const back=state.kept.get('gcu.ra');\n\
        return [...files,make('div','',...others,...back=='-'?[]:[cell('gcu.ra',back,before&&before.kept.get('gcu.ra'))])];\n\
        }\n\
        function memoryCells(state){\n\
        const all=[...state.memory].sort((a,b)=>a[0]-b[0]);\n\
        return all.length?all.map(([address,word])=>cell(address,word,state.changed.has(address)?'':word)):['nothing was stored'];\n\
        }\n\
        ",
    )
}

/// Puts the script that shows the data words that the moves of a state read: a word is the result that begins in the next state.
#[tactic(auto, unfolding(crate::specs::RunShowPieces::run_loads_text))]
pub fn push_run_loads(out: &mut Vec<u8>) -> Result<(), AllocError>
    ensures { OnOk result (out.new.items ≡ out.old.items ++ run_loads_text) }
{
    out.extend_from_slice(
        b"function loads(state,next){\n\
        return state.acts.filter(act=>act.look=='active'&&act.target.endsWith('.t.ldw')).map(act=>{\n\
        const unit=names.unit.indexOf(act.target.split('.')[0]),before=state.units[unit],after=next?next.units[unit]:[];\n\
        const word=after.find((word,delay)=>delay&&word!='-'&&(before[delay+1]||'-')=='-')||after[0];\n\
        return make('span','cell','reads '+act.word+(word?': '+shown(word):''));\n\
        });\n\
        }\n\
        ",
    )
}

/// Puts the script that tells which cycles are shown of those that were asked for, and which part of the code.
#[tactic(auto, unfolding(crate::specs::RunShowPieces::run_span_text))]
pub fn push_run_span(out: &mut Vec<u8>) -> Result<(), AllocError>
    ensures { OnOk result (out.new.items ≡ out.old.items ++ run_span_text) }
{
    out.extend_from_slice(
        b"function spanText(){\n\
        const first=states[0].cycle,last=states[states.length-1].cycle;\n\
        const rest=+first<asked.first?'; the run is over before':end=='more cycles may follow'?'; more may follow':'; then '+end;\n\
        const part=rows<instructions?'; of the code '+rows+' of '+instructions+' instructions are shown, and those that are reached':'';\n\
        return 'cycles '+first+' to '+last+' shown, '+asked.bound+(asked.first?' from cycle '+asked.first:'')+' asked for'+rest+part;\n\
        }\n\
        ",
    )
}

/// Puts the script that shows a state.
#[tactic(auto, unfolding(crate::specs::RunShowPieces::run_show_text))]
pub fn push_run_show(out: &mut Vec<u8>) -> Result<(), AllocError>
    ensures { OnOk result (out.new.items ≡ out.old.items ++ run_show_text) }
{
    out.extend_from_slice(
        b"let at=0,timer=0;\n\
        function show(to){\n\
        at=Math.max(0,Math.min(states.length-1,to));\n\
        const state=states[at],before=states[at-1],jump=state.jump;\n\
        find('slider').value=at;\n\
        find('where').textContent='cycle '+state.cycle+', address '+state.pc+(at==states.length-1?', '+end:'');\n\
        find('more').textContent=[...jump?[jump.kind+' to '+shown(jump.to)+' in '+jump.left]:[],...state.input?['next input '+shown(state.input)]:[]].join(', ');\n\
        showCode(state);\n\
        if(bySource){showSource(state);showVariables(state,before);}\n\
        find('flight').replaceChildren(flight(state));\n\
        find('registers').replaceChildren(...registers(state,before));\n\
        find('memory').replaceChildren(...memoryCells(state));\n\
        find('reads').replaceChildren(...loads(state,states[at+1]));\n\
        find('output').textContent=(+states[0].cycle?'.. ':'')+state.out.map(shown).join(' ');\n\
        showMoves(state);\n\
        }\n\
        ",
    )
}

/// Puts the script that plays a run.
#[tactic(auto, unfolding(crate::specs::RunShowPieces::run_playing_text))]
pub fn push_run_playing(out: &mut Vec<u8>) -> Result<(), AllocError>
    ensures { OnOk result (out.new.items ≡ out.old.items ++ run_playing_text) }
{
    out.extend_from_slice(
        b"const speeds=[1,2,5,10];\n\
        let speed=1;\n\
        const tick=()=>{clearInterval(timer);timer=setInterval(()=>at<states.length-1?show(at+1):stop(),1000/speeds[speed]);};\n\
        function stop(){clearInterval(timer);timer=0;find('play').textContent='play';}\n\
        function play(){\n\
        if(timer)return stop();\n\
        find('play').textContent='pause';\n\
        tick();\n\
        }\n\
        function faster(){\n\
        speed=(speed+1)%speeds.length;\n\
        find('speed').textContent=speeds[speed]+' a second';\n\
        if(timer)tick();\n\
        }\n\
        ",
    )
}

/// Puts the script of buttons, slider and keys.
#[tactic(auto, unfolding(crate::specs::RunShowPieces::run_buttons_text))]
pub fn push_run_buttons(out: &mut Vec<u8>) -> Result<(), AllocError>
    ensures { OnOk result (out.new.items ≡ out.old.items ++ run_buttons_text) }
{
    out.extend_from_slice(
        b"function reform(){form=(form+1)%3;find('form').textContent=forms[form];show(at);}\n\
        find('title').textContent=document.title;\n\
        find('span').textContent=spanText();\n\
        find('slider').max=states.length-1;\n\
        find('slider').oninput=event=>show(+event.target.value);\n\
        find('to').onchange=event=>{show(+event.target.value-states[0].cycle);event.target.blur();};\n\
        find('back').onclick=()=>show(at-1);\n\
        find('forward').onclick=()=>show(at+1);\n\
        find('play').onclick=play;\n\
        find('form').onclick=reform;\n\
        find('speed').onclick=faster;\n\
        onKeys({ArrowRight:()=>show(at+1),ArrowLeft:()=>show(at-1),Home:()=>show(0),End:()=>show(states.length-1),p:play,f:reform,s:faster,\n\
        g:()=>find('to').focus(),'+':()=>{resize(1.1);show(at);},'-':()=>{resize(1/1.1);show(at);}});\n\
        show(0);\n\
        ",
    )
}
