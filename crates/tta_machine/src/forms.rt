//! The declarations of a machine's text, each as the words of its line give it.

use tta_parse::Word;

/// `bus NAME short N signed`, or `unsigned`
#[derive(Clone, Copy)]
pub struct BusForm<'t> {
    pub name: &'t [u8],
    pub short: u32,
    pub signed: bool,
}

/// `socket NAME in BUS ..`, or `out`. Each word of `buses` is a name.
#[derive(Clone, Copy)]
pub struct SocketForm<'t> {
    pub name: &'t [u8],
    pub input: bool,
    pub buses: &'t [Word<'t>],
}

/// `file NAME width W size K read R write T out SOCKET in SOCKET`
#[derive(Clone, Copy)]
pub struct FileForm<'t> {
    pub name: &'t [u8],
    pub width: u32,
    pub size: u32,
    pub read: u32,
    pub write: u32,
    pub out: &'t [u8],
    pub into: &'t [u8],
}

/// `imm NAME size K out SOCKET`
#[derive(Clone, Copy)]
pub struct ImmForm<'t> {
    pub name: &'t [u8],
    pub size: u32,
    pub out: &'t [u8],
}

/// `unit NAME o SOCKET t SOCKET r SOCKET`; the pairs of `o` and `r` may be left out.
#[derive(Clone, Copy)]
pub struct UnitForm<'t> {
    pub name: &'t [u8],
    pub operand: Option<&'t [u8]>,
    pub trigger: &'t [u8],
    pub result: Option<&'t [u8]>,
}

/// `op UNIT OPERATION L`, or without the latency `L`
#[derive(Clone, Copy)]
pub struct OpForm<'t> {
    pub unit: &'t [u8],
    pub operation: &'t [u8],
    pub latency: Option<u32>,
}

/// `guard BUS FILE.INDEX plain`, or `inverted`
#[derive(Clone, Copy)]
pub struct GuardForm<'t> {
    pub bus: &'t [u8],
    pub file: &'t [u8],
    pub index: u32,
    pub inverted: bool,
}

/// `template NAME IMM.INDEX BUS ..`. Each word of `buses` is a name.
#[derive(Clone, Copy)]
pub struct TemplateForm<'t> {
    pub name: &'t [u8],
    pub imm: &'t [u8],
    pub index: u32,
    pub buses: &'t [Word<'t>],
}

/// `control delay D address A t SOCKET ra SOCKET`; the pair of `ra` may be left out.
#[derive(Clone, Copy)]
pub struct ControlForm<'t> {
    pub delay: u32,
    pub address: u32,
    pub trigger: &'t [u8],
    pub ra: Option<&'t [u8]>,
}

/// `space data N`, or `frame`
#[derive(Clone, Copy)]
pub struct SpaceForm {
    pub is_data: bool,
    pub size: u32,
}
