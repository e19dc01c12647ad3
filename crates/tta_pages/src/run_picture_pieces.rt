//! The pieces of the fixed text of the script that draws the machine of a run.

ghost use Rattle.std.specs.Prelude.{◌≡◌, ◌++◌, OnOk};
ghost use Rattle.tta_pages.specs.RunPicturePieces.{run_picture_acts_text, run_picture_machine_text};
ghost use Rattle.tta_pages.specs.RunPicturePieces.{run_picture_moves_text, run_picture_parts_text};
ghost use Rattle.tta_pages.specs.RunPicturePieces.{run_picture_places_text};

use std::alloc::AllocError;

/// Puts the script that places the parts of the machine: files, immediate units and control above the buses, and units below.
#[tactic(auto, unfolding(crate::specs::RunPicturePieces::run_picture_places_text))]
pub fn push_run_picture_places(out: &mut Vec<u8>) -> Result<(), AllocError>
    ensures { OnOk result (out.new.items ≡ out.old.items ++ run_picture_places_text) }
{
    out.extend_from_slice(
        b"const LEFT=70,PITCH=30,boxes=[],busY=bus=>86+PITCH*bus,bottom=busY(names.bus.length-1);\n\
        function draw(kind,given,...inner){\n\
        const element=document.createElementNS('http://www.w3.org/2000/svg',kind);\n\
        for(const name in given)element.setAttribute(name,given[name]);\n\
        element.append(...inner);\n\
        return element;\n\
        }\n\
        function placeRow(parts,x,top,edge){\n\
        for(const name of parts){\n\
        const own=ports.filter(port=>port.part==name),width=Math.max(own.length*34,name.length*9+16,56);\n\
        own.forEach((port,k)=>Object.assign(port,{x:x+width*(k+.5)/own.length,edge}));\n\
        boxes.push({name,x,width,top});\n\
        x+=width+16;\n\
        }\n\
        return x;\n\
        }\n\
        const above=placeRow([...names.file,...names.imm,'gcu'],LEFT+10,6,52),below=placeRow(names.unit,LEFT+19,bottom+34,bottom+34),right=Math.max(above,below)+10;\n\
        ",
    )
}

/// Puts the script that draws a part, and a port with the buses that it joins.
#[tactic(auto, unfolding(crate::specs::RunPicturePieces::run_picture_parts_text))]
pub fn push_run_picture_parts(out: &mut Vec<u8>) -> Result<(), AllocError>
    ensures { OnOk result (out.new.items ≡ out.old.items ++ run_picture_parts_text) }
{
    out.extend_from_slice(
        b"const center=(look,x,y,text)=>draw('text',{class:look,x,y,'text-anchor':'middle'},text);\n\
        function partOf(box){\n\
        const middle=box.x+box.width/2,up=box.top<60;\n\
        box.shape=draw('rect',{class:'part',x:box.x,y:box.top,width:box.width,height:46,rx:4});\n\
        box.does=center('does',middle,box.top+(up?29:27),'');\n\
        return [box.shape,center('name',middle,box.top+(up?15:41),box.name),box.does];\n\
        }\n\
        const nameOf=port=>center('port',port.x,port.edge+(port.edge<60?-4:11),port.which);\n\
        function portOf(port){\n\
        const joints=names.bus.map((name,bus)=>bus).filter(bus=>port.buses>>bus&1);\n\
        const far=busY(port.edge<60?Math.max(...joints):Math.min(...joints));\n\
        const dots=joints.map(bus=>draw('circle',{class:'joint',cx:port.x,cy:busY(bus),r:4}));\n\
        return [draw('line',{class:'stub',x1:port.x,y1:port.edge,x2:port.x,y2:joints.length?far:port.edge}),...dots];\n\
        }\n\
        ",
    )
}

/// Puts the script that draws the buses, and all of the machine.
#[tactic(auto, unfolding(crate::specs::RunPicturePieces::run_picture_machine_text))]
pub fn push_run_picture_machine(out: &mut Vec<u8>) -> Result<(), AllocError>
    ensures { OnOk result (out.new.items ≡ out.old.items ++ run_picture_machine_text) }
{
    out.extend_from_slice(
        b"const busOf=(name,bus)=>[draw('line',{class:'bus',x1:LEFT,y1:busY(bus),x2:right,y2:busY(bus)}),draw('text',{x:LEFT-8,y:busY(bus)+5,'text-anchor':'end'},name)];\n\
        const acting=draw('g',{});\n\
        find('picture').append(draw('svg',{viewBox:'0 0 '+(right+10)+' '+(bottom+88)},\n\
        ...names.bus.flatMap(busOf),...ports.flatMap(portOf),...boxes.flatMap(partOf),...ports.map(nameOf),acting));\n\
        ",
    )
}

/// Puts the script that draws the moves of the current instruction: from a port onto the bus, and into a port.
#[tactic(auto, unfolding(crate::specs::RunPicturePieces::run_picture_moves_text))]
pub fn push_run_picture_moves(out: &mut Vec<u8>) -> Result<(), AllocError>
    ensures { OnOk result (out.new.items ≡ out.old.items ++ run_picture_moves_text) }
{
    out.extend_from_slice(
        b"function portAt(place,into){\n\
        const [part,which]=place.split('.');\n\
        return ports.find(port=>port.part==part&&port.which==(names.file.includes(part)?into?'w':'r':names.imm.includes(part)?'r':which));\n\
        }\n\
        function drawMove(act,bus){\n\
        if(act.look=='plain')return [];\n\
        const y=busY(bus),from=portAt(act.source,false),to=portAt(act.target,true),acts=act.look=='active';\n\
        if(!to)return [];\n\
        const start=from?'M'+from.x+' '+from.edge+'V'+y:'M'+LEFT+' '+y,middle=((from?from.x:LEFT)+to.x)/2;\n\
        const tip=to.edge<60?-7:7,arrow=acts?'m-6 '+-tip+'l6 '+tip+'l6 '+-tip:'';\n\
        return [draw('path',{class:acts?'carries':'stops',d:start+'H'+to.x+'V'+to.edge+arrow}),\n\
        center(acts?'carried':'stopped',middle,y-5,acts?shown(act.word):act.source)];\n\
        }\n\
        ",
    )
}

/// Puts the script that marks the parts that act, and draws all moves of the current instruction.
#[tactic(auto, unfolding(crate::specs::RunPicturePieces::run_picture_acts_text))]
pub fn push_run_picture_acts(out: &mut Vec<u8>) -> Result<(), AllocError>
    ensures { OnOk result (out.new.items ≡ out.old.items ++ run_picture_acts_text) }
{
    out.extend_from_slice(
        b"function showMoves(state){\n\
        const moves=state.acts||[],active=moves.filter(act=>act.look=='active'),long=/^.([^=]+)=/.exec(state.long||'');\n\
        const touched=new Set([...active.flatMap(act=>[act.source,act.target]),...long?[templates[long[1]]]:[]].map(place=>place.split('.')[0]));\n\
        for(const box of boxes){\n\
        const started=active.find(act=>act.target.startsWith(box.name+'.t.'));\n\
        box.shape.classList.toggle('acts',touched.has(box.name));\n\
        box.does.textContent=started?started.target.split('.')[2]:'';\n\
        }\n\
        acting.replaceChildren(...moves.flatMap(drawMove));\n\
        }\n\
        ",
    )
}
