//! The pieces of the fixed text of the script that reads the states of a run.

ghost use Rattle.std.specs.Prelude.{◌≡◌, ◌++◌, OnOk};
ghost use Rattle.tta_pages.specs.RunStatesPieces.{run_lines_text, run_moves_text, run_origins_text};
ghost use Rattle.tta_pages.specs.RunStatesPieces.{run_reading_text, run_words_text};

use std::alloc::AllocError;

/// Puts the script that reads the data: what was asked for, names, ports, instructions and states.
#[tactic(auto, unfolding(crate::specs::RunStatesPieces::run_reading_text))]
pub fn push_run_reading(out: &mut Vec<u8>) -> Result<(), AllocError>
    ensures { OnOk result (out.new.items ≡ out.old.items ++ run_reading_text) }
{
    out.extend_from_slice(
        b"const names={bus:[],file:[],imm:[],unit:[]},ports=[],templates={},states=[],code=new Map(),out=[],memory=new Map(),slots=new Map(),asked={},origins=[];\n\
        let end='more cycles may follow',delay=0,changed=new Set(),instructions=0,rows=0;\n\
        const takes={\n\
        delay:w=>delay=+w[0],\n\
        asked:w=>Object.assign(asked,{first:+w[0],bound:+w[1]}),\n\
        port:w=>ports.push({part:w[0],which:w[1],buses:+w[2]}),\n\
        template:w=>templates[w[0]]=w[1],\n\
        instructions:w=>instructions=+w[0],\n\
        row:w=>{code.set(+w[0],w.slice(1).join(' '));rows++;},\n\
        code:(w,state)=>code.has(state.pc)||code.set(state.pc,w.join(' ')),\n\
        state:w=>{\n\
        states.push({cycle:w[0],pc:+w[1],jump:null,files:[],imms:[],units:[],input:'',out:out.slice(),memory:new Map(memory),changed:states.length?changed:new Set(),\n\
        kept:new Map(slots)});\n\
        changed=new Set();\n\
        },\n\
        ",
    )
}

/// Puts the script that reads which lines a block of code stands for, and which variables are live in it, each with its home.
#[tactic(auto, unfolding(crate::specs::RunStatesPieces::run_origins_text))]
pub fn push_run_origins(out: &mut Vec<u8>) -> Result<(), AllocError>
    ensures { OnOk result (out.new.items ≡ out.old.items ++ run_origins_text) }
{
    out.extend_from_slice(
        b"block:w=>{\n\
        const block=originOf(['block',...w]);\n\
        origins.push({...block,address:+block.rest[1],cycles:+block.rest[3],lines:[],lives:[],tint:'tint'+origins.length%6});\n\
        },\n\
        lines:w=>origins[origins.length-1].lines=w.map(line=>origins[origins.length-1].proc+':'+line),\n\
        live:w=>origins[origins.length-1].lives.push({name:w[0],home:w[1]}),\n\
        ",
    )
}

/// Puts the script that reads the lines of a state.
#[tactic(auto, unfolding(crate::specs::RunStatesPieces::run_lines_text))]
pub fn push_run_lines(out: &mut Vec<u8>) -> Result<(), AllocError>
    ensures { OnOk result (out.new.items ≡ out.old.items ++ run_lines_text) }
{
    out.extend_from_slice(
        b"pending:(w,state)=>state.jump={kind:w[0],to:w[1],left:+w[2]},\n\
        registers:(w,state)=>state.files.push(w),\n\
        immediates:(w,state)=>w.forEach((word,k)=>state.kept.set(names.imm[state.imms.length]+'.'+k,word))||state.imms.push(w),\n\
        operands:(w,state)=>w.forEach((word,k)=>state.kept.set(names.unit[k]+'.o',word)),\n\
        return:(w,state)=>state.kept.set('gcu.ra',w[0]),\n\
        results:(w,state)=>state.units.push(w),\n\
        input:(w,state)=>state.input=w[0],out:w=>out.push(w[0]),\n\
        store:w=>{memory.set(+w[0],w[1]);changed.add(+w[0]);},\n\
        slot:w=>slots.set('slot.'+w[0],w[1])\n\
        };\n\
        for(const line of find('data').textContent.split(newline)){\n\
        const [kind,...words]=line.split(' ');\n\
        if(names[kind])names[kind].push(words[0]);\n\
        else if(takes[kind])takes[kind](words,states[states.length-1]);\n\
        else if(line)end=line;\n\
        }\n\
        const joined=joinAll(stagesOf(find('source').textContent));\n\
        ",
    )
}

/// Puts the script that works out which moves of a state act, and the words that they carry.
#[tactic(auto, unfolding(crate::specs::RunStatesPieces::run_moves_text))]
pub fn push_run_moves(out: &mut Vec<u8>) -> Result<(), AllocError>
    ensures { OnOk result (out.new.items ≡ out.old.items ++ run_moves_text) }
{
    out.extend_from_slice(
        b"function wordOf(state,source){\n\
        const [unit,index]=source.split('.'),file=names.file.indexOf(unit),q=names.unit.indexOf(unit);\n\
        if(/^[0-9]+$/.test(source))return source;\n\
        if(file>=0)return state.files[file][+index];\n\
        if(q>=0)return state.units[q][0];\n\
        return state.kept.get(source)||'-';\n\
        }\n\
        function actOf(state,text){\n\
        const [,guard,source,target]=/^([?!][^ ]+ )?([^ ]+) -> ([^ ]+)$/.exec(text)||[];\n\
        if(!target)return {text,look:'plain',word:'',source:'',target:''};\n\
        const truth=guard&&wordOf(state,guard.slice(1,-1)),acts=!guard||truth!='-'&&(guard[0]=='?')==(truth!='0');\n\
        return {text,look:acts?'active':'passed',word:acts?wordOf(state,source):'',told:acts&&!/^[0-9]/.test(source),source,target};\n\
        }\n\
        function actsOf(state){\n\
        const [moves,long]=(code.get(state.pc)||'').replace(/ ;$/,'').split(' [');\n\
        state.acts=moves.split(' , ').map(text=>actOf(state,text));\n\
        state.long=long?'['+long:'';\n\
        }\n\
        states.forEach(actsOf);\n\
        const reached=new Set(states.map(state=>state.pc));\n\
        ",
    )
}

/// Puts the script that writes words: decimal, signed or hexadecimal.
#[tactic(auto, unfolding(crate::specs::RunStatesPieces::run_words_text))]
pub fn push_run_words(out: &mut Vec<u8>) -> Result<(), AllocError>
    ensures { OnOk result (out.new.items ≡ out.old.items ++ run_words_text) }
{
    out.extend_from_slice(
        b"const forms=['decimal','signed','hexadecimal'];\n\
        let form=0;\n\
        function shown(word){\n\
        if(word===undefined||word===''||word=='-'||form==0)return word||'-';\n\
        if(form==1)return ''+(+word>=2**31?word-2**32:word);\n\
        return '0x'+(+word).toString(16);\n\
        }\n\
        const cell=(name,word,old)=>make('span',old===undefined||old==word?'cell':'cell changed',name+': '+shown(word));\n\
        ",
    )
}
