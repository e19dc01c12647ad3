//! The pieces of the fixed text of what pages share.

ghost use Rattle.std.specs.Prelude.{◌≡◌, ◌++◌, OnOk};
ghost use Rattle.tta_pages.specs.CommonPieces.{code_readers_text, end_text, fit_text, follow_text};
ghost use Rattle.tta_pages.specs.CommonPieces.{open_script_text, parts_text, passes_text};
ghost use Rattle.tta_pages.specs.CommonPieces.{stages_text, style_text, tints_text};

use std::alloc::AllocError;

/// Puts the style that pages share: letters that scale with the window, tints for blocks, and no red beside green.
#[tactic(auto, unfolding(crate::specs::CommonPieces::style_text))]
pub fn push_style(out: &mut Vec<u8>) -> Result<(), AllocError>
    ensures { OnOk result (out.new.items ≡ out.old.items ++ style_text) }
{
    out.extend_from_slice(
        b"*{box-sizing:border-box}\n\
        body{font-family:ui-monospace,Menlo,Consolas,'DejaVu Sans Mono',monospace;color:#16202c;background:#fff;margin:0;line-height:1.35}\n\
        h1{font-size:1.15rem;margin:0 1rem 0 0;display:inline}\n\
        h2{font-size:.95rem;margin:0 0 .2rem;color:#43505e;font-weight:600}\n\
        header{padding:.4rem .8rem;background:#e9eef4;border-bottom:2px solid #43505e}\n\
        header>*{margin-right:.6rem;vertical-align:middle}\n\
        footer{padding:.3rem .8rem;background:#e9eef4;border-top:2px solid #43505e}\n\
        button,input,select{font:inherit;color:inherit}\n\
        button{border:1px solid #43505e;border-radius:.3rem;background:#fff;padding:.1rem .6rem}\n\
        kbd{border:1px solid #43505e;border-radius:.25rem;background:#fff;padding:0 .3rem}\n\
        table{border-collapse:collapse}\n\
        td,th{text-align:left;vertical-align:top;padding:.05rem .5rem;white-space:pre}\n\
        th{color:#43505e;font-weight:600}\n\
        ",
    )
}

/// Puts the style of blocks, of what is left out, and of what is marked.
#[tactic(auto, unfolding(crate::specs::CommonPieces::tints_text))]
pub fn push_tints(out: &mut Vec<u8>) -> Result<(), AllocError>
    ensures { OnOk result (out.new.items ≡ out.old.items ++ tints_text) }
{
    out.extend_from_slice(
        b".tint0{background:#d6ecfa}.tint1{background:#fde6c4}.tint2{background:#f1dcec}\n\
        .tint3{background:#fbf5bd}.tint4{background:#dcdff7}.tint5{background:#ebe3d0}\n\
        .gone{text-decoration:line-through;color:#5b6673}\n\
        .why{color:#43505e;font-style:italic;text-decoration:none}\n\
        .dim{color:#66727f}\n\
        .line{box-shadow:inset .2rem 0 #1d4ed8;background:#fff;font-weight:700}\n\
        .item{background:#1d4ed8;color:#fff}.item .why{color:#fff}\n\
        .result{outline:.15rem dashed #b45309;outline-offset:-.1rem}\n\
        .bar{position:absolute;top:.1rem;bottom:.1rem;padding:0 .3rem;overflow:hidden;border-left:.2rem solid #43505e}\n\
        ",
    )
}

/// Puts the script of the size of letters, which follows the window, and of keys, which leaves those with Ctrl, Alt or Meta to the browser.
#[tactic(auto, unfolding(crate::specs::CommonPieces::fit_text))]
pub fn push_fit(out: &mut Vec<u8>) -> Result<(), AllocError>
    ensures { OnOk result (out.new.items ≡ out.old.items ++ fit_text) }
{
    out.extend_from_slice(
        b"let size=1;\n\
        function fit(){document.documentElement.style.fontSize=size*Math.max(12,Math.min(innerWidth/88,innerHeight/42))+'px';}\n\
        function resize(by){size=Math.max(.4,Math.min(4,size*by));fit();}\n\
        function onKeys(keys){\n\
        document.onkeydown=event=>{\n\
        if(event.ctrlKey||event.altKey||event.metaKey||!keys[event.key])return;\n\
        if(event.target.tagName=='INPUT'&&(event.target.type!='range'||event.key.length>1))return;\n\
        keys[event.key]();\n\
        event.preventDefault();\n\
        };\n\
        }\n\
        window.onresize=fit;\n\
        fit();\n\
        ",
    )
}

/// Puts the end of the data, and where the script begins.
#[tactic(auto, unfolding(crate::specs::CommonPieces::open_script_text))]
pub fn push_open_script(out: &mut Vec<u8>) -> Result<(), AllocError>
    ensures { OnOk result (out.new.items ≡ out.old.items ++ open_script_text) }
{
    out.extend_from_slice(
        b"</script>\n\
        <script>\n\
        ",
    )
}

/// Puts the end of a page.
#[tactic(auto, unfolding(crate::specs::CommonPieces::end_text))]
pub fn push_end(out: &mut Vec<u8>) -> Result<(), AllocError>
    ensures { OnOk result (out.new.items ≡ out.old.items ++ end_text) }
{
    out.extend_from_slice(
        b"</script>\n\
        </body>\n\
        </html>\n\
        ",
    )
}

/// Puts the script that finds elements, and takes the text of stages apart into headings with their lines, and the lines of C beside these.
#[tactic(auto, unfolding(crate::specs::CommonPieces::parts_text))]
pub fn push_parts(out: &mut Vec<u8>) -> Result<(), AllocError>
    ensures { OnOk result (out.new.items ≡ out.old.items ++ parts_text) }
{
    out.extend_from_slice(
        b"const newline=String.fromCharCode(10);\n\
        const find=id=>document.getElementById(id);\n\
        function make(kind,look,...inner){\n\
        const element=document.createElement(kind);\n\
        element.className=look;\n\
        element.append(...inner);\n\
        return element;\n\
        }\n\
        function partsOf(text){\n\
        const parts=[];\n\
        for(const told of text.split(newline)){\n\
        const [line,place]=told.split(/ {2}; /),part=parts[parts.length-1];\n\
        if(line[0]==' ')part.places[part.lines.push(line.slice(1))-1]=place||'';\n\
        else if(line)parts.push({words:line.split(' '),lines:[],places:[]});\n\
        }\n\
        return parts;\n\
        }\n\
        const listed=line=>line.split(':')[1].trim().split(' ').filter(word=>word);\n\
        function originOf(words){\n\
        const kind=words[2],size={steps:6,entry:3,return:5}[kind],own=words.slice(2,2+size);\n\
        return {name:words[1],kind,proc:own[2],first:+own[4]||0,last:+own[5]||+own[4]||0,origin:own.join(' '),rest:words.slice(2+size)};\n\
        }\n\
        ",
    )
}

/// Puts the script that reads the parts: basic blocks, variables, register code, lists of moves, and the code.
#[tactic(auto, unfolding(crate::specs::CommonPieces::stages_text))]
pub fn push_stages(out: &mut Vec<u8>) -> Result<(), AllocError>
    ensures { OnOk result (out.new.items ≡ out.old.items ++ stages_text) }
{
    out.extend_from_slice(
        b"const readers={\n\
        block:(all,w,lines,places)=>all.blocks.push({proc:w[3],first:+w[8],last:+w[9],before:listed(lines[0]),after:listed(lines[lines.length-1]),\n\
        steps:lines.slice(1,-1).map(line=>/^line ([0-9]+) : (.*)$/.exec(line)).map((m,k)=>({line:+m[1],text:m[2],place:places[k+1]}))}),\n\
        variables:(all,w,lines)=>lines.forEach(line=>{\n\
        const [name,home,...span]=line.split(' '),at=[...line.matchAll(/entry|line ([0-9]+)/g)].map(m=>+m[1]||0);\n\
        all.variables.push({proc:w[2],name,home,first:at[0],last:at[1],span:span.join(' ')});\n\
        }),\n\
        ",
    )
}

/// Puts the script that reads register code, lists of moves, and the code, and then the whole text.
#[tactic(auto, unfolding(crate::specs::CommonPieces::code_readers_text))]
pub fn push_code_readers(out: &mut Vec<u8>) -> Result<(), AllocError>
    ensures { OnOk result (out.new.items ≡ out.old.items ++ code_readers_text) }
{
    out.extend_from_slice(
        b"code:(all,w,lines)=>{\n\
        const origin=originOf(w),block={...origin,address:+origin.rest[1],cycles:+origin.rest[3],steps:lines.slice(0,-2),exit:lines[lines.length-2],\n\
        live:listed(lines[lines.length-1]),lists:[],rows:[]};\n\
        all.code.push(block);\n\
        all.named.set(block.name,block);\n\
        },\n\
        list:(all,w,lines)=>{\n\
        const list=originOf(w),items=lines.filter(line=>!line.startsWith('live after'));\n\
        all.named.get(list.name).lists.push({what:list.rest.slice(0,-2).join(' '),items});\n\
        },\n\
        placed:(all,w,lines)=>{\n\
        all.named.get(w[1]).rows=lines.map(line=>/^([0-9]+) : (.*) ;$/.exec(line)).map(m=>({address:+m[1],text:m[2]}));\n\
        }};\n\
        function stagesOf(text){\n\
        const all={pair:'',blocks:[],variables:[],code:[],named:new Map()};\n\
        for(const part of partsOf(text))if(readers[part.words[0]])readers[part.words[0]](all,part.words,part.lines,part.places);else all.pair=part.words[1];\n\
        all.code.forEach((block,k)=>block.tint='tint'+k%6);\n\
        return all;\n\
        }\n\
        ",
    )
}

/// Puts the script that follows moves through the passes: which are changed, and which are left out and by what.
#[tactic(auto, unfolding(crate::specs::CommonPieces::follow_text))]
pub fn push_follow(out: &mut Vec<u8>) -> Result<(), AllocError>
    ensures { OnOk result (out.new.items ≡ out.old.items ++ follow_text) }
{
    out.extend_from_slice(
        b"const targetOf=text=>text.split(' -> ')[1];\n\
        function comesFrom(before,after,what){\n\
        const free=before.map(()=>true),whole=before.length==after.length&&/bypass|bound/.test(what),cut=/share|dead/.test(what);\n\
        let next=0;\n\
        return after.map((text,at)=>{\n\
        if(whole)return at;\n\
        const can=k=>free[k]&&(!cut||k>=next);\n\
        let from=before.findIndex((old,k)=>can(k)&&old==text);\n\
        if(from<0)from=before.findIndex((old,k)=>can(k)&&targetOf(old)==targetOf(text));\n\
        if(from>=0){free[from]=false;next=from+1;}\n\
        return from;\n\
        });\n\
        }\n\
        ",
    )
}

/// Puts the script that follows the moves of a block from its first list to its last.
#[tactic(auto, unfolding(crate::specs::CommonPieces::passes_text))]
pub fn push_passes(out: &mut Vec<u8>) -> Result<(), AllocError>
    ensures { OnOk result (out.new.items ≡ out.old.items ++ passes_text) }
{
    out.extend_from_slice(
        b"function followed(lists){\n\
        const items=lists[0].items.map(text=>({text,now:text,was:[],gone:''}));\n\
        let last=items.slice(),before=lists[0].items;\n\
        for(const list of lists.slice(1)){\n\
        const from=comesFrom(before,list.items,list.what),kept=new Set(from),old=last;\n\
        last=[];\n\
        list.items.forEach((text,k)=>{\n\
        const item=from[k]<0?{text:'',now:'',was:[],gone:'',near:last[k-1]}:old[from[k]];\n\
        if(from[k]<0)items.splice(items.indexOf(item.near)+1,0,item);\n\
        if(item.now!=text){item.now=text;item.was.push([list.what,text]);}\n\
        last.push(item);\n\
        });\n\
        old.forEach((item,k)=>{if(!kept.has(k))item.gone=list.what;});\n\
        before=list.items;\n\
        }\n\
        return {items,last};\n\
        }\n\
        ",
    )
}
