//! The pieces of the fixed text of the script that joins lines, register code, moves and cycles.

ghost use Rattle.std.specs.Prelude.{◌≡◌, ◌++◌, OnOk};
ghost use Rattle.tta_pages.specs.JoinsPieces.{all_joins_text, joins_text, moves_text, places_text};

use std::alloc::AllocError;

/// Puts the script that finds the cycle and the bus of each move that is left.
#[tactic(auto, unfolding(crate::specs::JoinsPieces::places_text))]
pub fn push_places(out: &mut Vec<u8>) -> Result<(), AllocError>
    ensures { OnOk result (out.new.items ≡ out.old.items ++ places_text) }
{
    out.extend_from_slice(
        b"function slotsOf(row){\n\
        const [moves,long]=row.text.split(' ['),slots=moves.split(' , ').map((text,bus)=>({address:row.address,bus,text}));\n\
        return long?[...slots,{address:row.address,bus:-1,text:'['+long}]:slots;\n\
        }\n\
        function placeAll(all,block,last){\n\
        block.slots=block.rows.flatMap(slotsOf).filter(slot=>slot.text!='...');\n\
        const numbered=text=>text.replace(/(^| )(b[0-9]+) ->/,(m,blank,name)=>blank+all.named.get(name).address+' ->');\n\
        for(const item of last){\n\
        const text=numbered(item.now),long=text.startsWith('long ');\n\
        const slot=block.slots.find(s=>!s.item&&(long?s.bus<0:s.text==text));\n\
        if(slot){slot.item=item;item.slot=slot;}\n\
        }\n\
        }\n\
        ",
    )
}

/// Puts the script that joins lines of the program, steps of register code and moves.
#[tactic(auto, unfolding(crate::specs::JoinsPieces::joins_text))]
pub fn push_joins(out: &mut Vec<u8>) -> Result<(), AllocError>
    ensures { OnOk result (out.new.items ≡ out.old.items ++ joins_text) }
{
    out.extend_from_slice(
        b"const bare=text=>text.replace(/ goto .*/,'').replace(/ call .*/,' call').replace(/^call .*/,'call').replace(/ 0 /g,' ');\n\
        function lineJoins(all,block){\n\
        const own=all.blocks.find(b=>b.proc==block.proc&&b.first<=block.first&&block.last<=b.last&&block.kind=='steps');\n\
        const steps=own?own.steps.filter(s=>s.line>=block.first&&s.line<=block.last):[];\n\
        const homes=Object.fromEntries(all.variables.filter(v=>v.proc==block.proc).map(v=>[v.name,v.home]));\n\
        const homed=steps.map(s=>bare(s.text.split(' ').map(word=>homes[word]||word).join(' ')));\n\
        let at=0;\n\
        const line=text=>{\n\
        const found=homed.indexOf(bare(text),at);\n\
        if(found>=0)at=found+1;\n\
        const step=steps[found>=0?found:Math.min(at,steps.length-1)];\n\
        return block.proc+':'+(step?step.line:block.first||'entry');\n\
        };\n\
        block.own=steps;\n\
        block.code=block.steps.map(text=>({text,line:line(text)}));\n\
        at=Math.max(0,steps.length-1);\n\
        block.code.push({text:block.exit,line:line(block.exit)});\n\
        }\n\
        ",
    )
}

/// Puts the script that finds the moves of each step of register code: up to the one that writes its result.
#[tactic(auto, unfolding(crate::specs::JoinsPieces::moves_text))]
pub fn push_moves(out: &mut Vec<u8>) -> Result<(), AllocError>
    ensures { OnOk result (out.new.items ≡ out.old.items ++ moves_text) }
{
    out.extend_from_slice(
        b"function lastMoveOf(step){\n\
        const home=/(^| )([^ ]+) = /.exec(step),op={store:'stw',save:'stf'}[step.split(' ')[0]]||step.split(' ')[0];\n\
        if(home&&!home[2].startsWith('slot.'))return text=>targetOf(text)==home[2];\n\
        return text=>targetOf(text).endsWith('.t.'+(home?'stf':op));\n\
        }\n\
        ",
    )
}

/// Puts the script that joins all blocks, and the start of an operation with the reads of its result.
#[tactic(auto, unfolding(crate::specs::JoinsPieces::all_joins_text))]
pub fn push_all_joins(out: &mut Vec<u8>) -> Result<(), AllocError>
    ensures { OnOk result (out.new.items ≡ out.old.items ++ all_joins_text) }
{
    out.extend_from_slice(
        b"function joinAll(all){\n\
        let results=0;\n\
        for(const block of all.code){\n\
        lineJoins(all,block);\n\
        const {items,last}=followed(block.lists.length?block.lists:[{what:'selected',items:[]}]),shown=items.filter(item=>item.text);\n\
        let from=0;\n\
        for(const step of block.code.slice(0,-1)){\n\
        const end=shown.findIndex((item,k)=>k>=from&&lastMoveOf(step.text)(item.text));\n\
        for(;from<=end;from++)shown[from].line=step.line;\n\
        }\n\
        for(;from<shown.length;from++)shown[from].line=block.code[block.code.length-1].line;\n\
        block.items=items;\n\
        items.forEach(item=>item.line=item.line||(item.near?item.near.line:block.code[0].line));\n\
        placeAll(all,block,last);\n\
        const open={};\n\
        for(const item of last){\n\
        const read=/(^| )([^ ]+)[.]r ->/.exec(item.now),start=/-> ([^ ]+)[.]t[.]/.exec(item.now);\n\
        if(read&&open[read[2]])item.result=open[read[2]];\n\
        if(start){item.starts=++results;open[start[1]]=results;}\n\
        }\n\
        }\n\
        return all;\n\
        }\n\
        ",
    )
}
