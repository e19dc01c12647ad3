//! What the lines of a program's text say, as their words give it.

use tta_parse::Word;
use tta_program::Rel;

/// An operand as it stands: the name of a variable, or a constant.
#[derive(Clone, Copy)]
pub enum Operand<'t> {
    Named(&'t [u8]),
    Constant(u32),
}

/// The operands of an operation: one or two.
#[derive(Clone, Copy)]
pub enum Operands<'t> {
    One(Operand<'t>),
    Two(Operand<'t>, Operand<'t>),
}

/// What a line says, over the words of the line and the bytes of the text. A branch that is taken
/// where a condition holds has its relation and two operands.
#[derive(Clone, Copy)]
pub enum Form<'w, 't> {
    /// `proc NAME x ..`; each word of `params` is a free name.
    Proc {
        name: &'t [u8],
        params: &'w [Word<'t>],
    },
    /// `data A V`
    Data {
        address: u32,
        value: u32,
    },
    /// `NAME :`
    Label {
        name: &'t [u8],
    },
    /// `d = s`
    Copy {
        d: &'t [u8],
        s: Operand<'t>,
    },
    /// `d = OPERATION b`, or `d = OPERATION a b`
    Apply {
        d: &'t [u8],
        op: &'t [u8],
        operands: Operands<'t>,
    },
    /// `d = load a`
    Load {
        d: &'t [u8],
        a: Operand<'t>,
    },
    /// `store a v`
    Store {
        a: Operand<'t>,
        v: Operand<'t>,
    },
    /// `out v`
    Put {
        v: Operand<'t>,
    },
    /// `d = in`
    Take {
        d: &'t [u8],
    },
    /// `if REL a b goto NAME`
    If {
        rel: Rel,
        a: Operand<'t>,
        b: Operand<'t>,
        label: &'t [u8],
    },
    /// `goto NAME`
    Goto {
        label: &'t [u8],
    },
    /// `when REL a b d = s`
    When {
        rel: Rel,
        a: Operand<'t>,
        b: Operand<'t>,
        d: &'t [u8],
        s: Operand<'t>,
    },
    /// `call NAME s ..`, and with a destination; each word of `args` is an operand.
    Call {
        d: Option<&'t [u8]>,
        callee: &'t [u8],
        args: &'w [Word<'t>],
    },
    /// `return`, and `return s`
    Return {
        s: Option<Operand<'t>>,
    },
    /// `halt`
    Halt,
    /// `end`
    End,
}
