//! The parts of a machine.

ghost use Rattle.std.specs.Prelude.{◌≡◌};
ghost use Rattle.tta_arch.specs.Rules.{same_op};

use crate::ends::GuardRef;
use tta_list::{Items, Name};
use tta_ops::OpId;

/// A bus: it carries one move a cycle.
#[derive(Drop)]
pub struct Bus {
    pub name: Name,
    /// How many bits its short immediate field has, 1 to 32.
    pub short: u8,
    /// Whether a short immediate is extended by its highest bit.
    pub signed: bool,
}

/// A socket: it joins ports to buses.
#[derive(Drop)]
pub struct Socket {
    pub name: Name,
    /// Whether it leads from buses into ports, and not from ports onto buses.
    pub input: bool,
    /// The buses that it joins, bit k for bus k.
    pub buses: u16,
}

/// A register file: all its registers share one output socket and one input socket.
#[derive(Drop)]
pub struct File {
    pub name: Name,
    /// How many bits a register has, 1 or 32.
    pub width: u8,
    /// How many registers it has, 1 to 64.
    pub size: u8,
    /// How many moves of a cycle may read it.
    pub read: u8,
    /// How many moves of a cycle may write it.
    pub write: u8,
    /// The output socket.
    pub out: u8,
    /// The input socket.
    pub into: u8,
}

/// An immediate unit: registers that templates write.
#[derive(Drop)]
pub struct ImmUnit {
    pub name: Name,
    /// How many registers it has, 1 to 16.
    pub size: u8,
    /// The output socket.
    pub out: u8,
}

/// What an operation of a unit does.
#[derive(Clone, Copy, Debug, PartialEq, Eq)]
pub enum Op {
    /// Loads a word of the data space.
    Ldw,
    /// Stores a word of the data space.
    Stw,
    /// Loads a word of the frame space.
    Ldf,
    /// Stores a word of the frame space.
    Stf,
    /// Outputs a word.
    Out,
    /// Takes the next word of the input.
    Take,
    /// An operation of the set of units.
    Set(OpId),
}

impl Op {
    ghost use Rattle.std.specs.Prelude.{◌≡◌};
    ghost use Rattle.tta_arch.specs.Effects.{has_result};

    /// Whether an operation has a result.
    #[inline(always)]
    pub fn has_result(self) -> bool
        ensures { result ≡ has_result self }
    {
        match self {
            Op::Ldw | Op::Ldf | Op::Take | Op::Set(_) => true,
            Op::Stw | Op::Stf | Op::Out => false,
        }
    }
}

/// Whether two operations are one.
pub fn same_op(a: Op, b: Op) -> bool
    ensures { result ≡ same_op a b }
{
    match (a, b) {
        (Op::Ldw, Op::Ldw) => true,
        (Op::Stw, Op::Stw) => true,
        (Op::Ldf, Op::Ldf) => true,
        (Op::Stf, Op::Stf) => true,
        (Op::Out, Op::Out) => true,
        (Op::Take, Op::Take) => true,
        (Op::Set(a), Op::Set(b)) => a.0 == b.0,
        _ => false,
    }
}

/// An operation that a unit offers.
#[derive(Clone, Copy, Debug, PartialEq, Eq)]
pub struct UnitOp {
    pub op: Op,
    /// How many words it takes, 1 or 2.
    pub arity: u8,
    /// After how many cycles its result shows, 1 to 16; 0 where it has no result.
    pub latency: u8,
}

/// An operation unit: a move into its trigger port starts an operation.
#[derive(Drop)]
pub struct Unit {
    pub name: Name,
    /// The socket of its operand port, where it has one.
    pub operand: Option<u8>,
    /// The socket of its trigger port.
    pub trigger: u8,
    /// The socket of its result port, where it has one.
    pub result: Option<u8>,
    pub ops: Items<UnitOp>,
}

/// A guard that a move on a bus may have.
#[derive(Clone, Copy, Debug, PartialEq, Eq)]
pub struct Guard {
    pub bus: u8,
    pub on: GuardRef,
}

/// A template: an instruction that names it carries a long immediate in place of moves on some
/// buses.
#[derive(Drop)]
pub struct Template {
    pub name: Name,
    /// The immediate unit that it writes.
    pub imm: u8,
    /// The register of that unit.
    pub reg: u8,
    /// The buses that it takes, bit k for bus k.
    pub buses: u16,
}

/// The control unit.
#[derive(Clone, Copy, Debug, PartialEq, Eq)]
pub struct Control {
    /// How many instructions are carried out between a control move's own and its effect, 0 to 4.
    pub delay: u8,
    /// How many bits an address has, 1 to 16.
    pub address: u8,
    /// The socket of its trigger port.
    pub trigger: u8,
    /// The socket of the return address, where it can be read.
    pub ra: Option<u8>,
}
