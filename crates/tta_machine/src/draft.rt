//! A machine while its text is read.

use tta_arch::{Bus, Control, File, Guard, ImmUnit, Socket, Template, Unit};
use tta_list::Items;
use tta_parse::Names;

/// What a name of a machine names: a part and its place in the list of its kind.
#[derive(Clone, Copy)]
pub enum Named {
    Bus(u8),
    Socket(u8),
    File(u8),
    Imm(u8),
    Unit(u8),
    Template(u8),
}

/// What the lines read so far declare.
#[derive(Drop)]
pub struct Draft {
    pub names: Names<Named>,
    pub buses: Items<Bus>,
    pub sockets: Items<Socket>,
    pub files: Items<File>,
    pub imms: Items<ImmUnit>,
    pub units: Items<Unit>,
    pub guards: Items<Guard>,
    pub templates: Items<Template>,
    /// The line of each template.
    pub template_lines: Items<u32>,
    pub control: Option<Control>,
    pub data_words: Option<u32>,
    pub frame_words: Option<u32>,
}
