//! What the pieces of an assembly text say, as their words give it: names stand as they are.

/// A word as it is given: a constant, or the name of a label.
#[derive(Clone, Copy)]
pub enum ValueForm<'t> {
    Constant(u32),
    Label(&'t [u8]),
}

/// The source of a move.
#[derive(Clone, Copy)]
pub enum SourceForm<'t> {
    /// A constant, or a label's name.
    Value(ValueForm<'t>),
    /// `FILE.INDEX` or `IMM.INDEX`
    Place { name: &'t [u8], index: u32 },
    /// `UNIT.r`
    Shown { unit: &'t [u8] },
    /// `gcu.ra`
    Ra,
}

/// The destination of a move.
#[derive(Clone, Copy)]
pub enum DestForm<'t> {
    /// `FILE.INDEX`
    Place { name: &'t [u8], index: u32 },
    /// `UNIT.o`
    Operand { unit: &'t [u8] },
    /// `UNIT.t.OPERATION`, and `gcu.t.jump`, `gcu.t.call`, `gcu.t.halt`
    Trigger { unit: &'t [u8], op: &'t [u8] },
}

/// The guard of a move: `?FILE.INDEX`, or `!FILE.INDEX`, which is inverted.
#[derive(Clone, Copy)]
pub struct GuardForm<'t> {
    pub file: &'t [u8],
    pub index: u32,
    pub inverted: bool,
}

/// A move.
#[derive(Clone, Copy)]
pub struct MoveForm<'t> {
    pub guard: Option<GuardForm<'t>>,
    pub src: SourceForm<'t>,
    pub dst: DestForm<'t>,
}

/// A slot, with the line of its first word: a move, or `...` for none.
#[derive(Clone, Copy)]
pub struct SlotForm<'t> {
    pub line: u32,
    pub action: Option<MoveForm<'t>>,
}

/// A long immediate, `[TEMPLATE=VALUE]`, with the line of its first word.
#[derive(Clone, Copy)]
pub struct LongForm<'t> {
    pub line: u32,
    pub template: &'t [u8],
    pub value: ValueForm<'t>,
}

/// A slot, and the long immediate after it, if any.
#[derive(Clone, Copy)]
pub struct PieceForm<'t> {
    pub slot: SlotForm<'t>,
    pub long: Option<LongForm<'t>>,
}
