//! Which instructions a machine can carry out.

ghost use Rattle.std.specs.Prelude.{◌≡◌, ◌<◌, true, false, None, Some, OnOk, OnErr, MatchResult};
ghost use Rattle.std.specs.Prelude.{length};
ghost use Rattle.std.specs.Result.{result_err};
ghost use Rattle.tta_connect.specs.Net.{IsNetOf};
ghost use Rattle.tta_code.specs.Legal.{is_instruction, is_legal};
ghost use Rattle.tta_code.specs.Illegal.{broken_by, first_illegal};

use crate::code::{Instruction, Move};
use crate::room::{has_read_left, has_write_left, is_place_free, taken};
use tta_arch::{Machine, has_bus};
use tta_connect::Net;

/// Why a machine cannot carry out an instruction.
#[derive(Clone, Copy, Debug, PartialEq, Eq)]
pub enum Illegal {
    /// A move stands on a bus that the template takes.
    TakenBus,
    /// A move's bus does not join its ends, or does not have its guard.
    Unjoined,
    /// A file is read by more moves than it can be, or an immediate unit by two.
    ReadPorts,
    /// A file is written by more moves than it can be.
    WritePorts,
    /// Two moves go into one place: a register, an operand port, or a trigger port.
    TwoIntoOne,
}

/// Tests a move against the moves on the buses below its own.
fn check_move(
    m: &Machine,
    net: &Net,
    taken: u16,
    before: &[Option<Move>],
    v: Move,
) -> Result<(), Illegal>
    requires net { IsNetOf net.now m.now }
    requires few { length before.now < 16 }
    ensures { result_err result ≡ broken_by m.now taken before.now v }
{
    let bus = before.len();
    if has_bus(taken, bus) {
        return Err(Illegal::TakenBus);
    }
    if !net.joins(m, bus as u8, &v.src, &v.dst, &v.guard) {
        return Err(Illegal::Unjoined);
    }
    if !has_read_left(m, before, v.src) {
        return Err(Illegal::ReadPorts);
    }
    if !has_write_left(m, before, v.dst) {
        return Err(Illegal::WritePorts);
    }
    if !is_place_free(before, v.dst) {
        return Err(Illegal::TwoIntoOne);
    }
    Ok(())
}

/// Whether the machine can carry out an instruction. The buses are walked upwards, and on each the
/// rules are tested in the order of the variants of `Illegal` against the moves walked so far: the
/// first that is broken is reported. It takes no memory.
pub fn legal(m: &Machine, net: &Net, i: &Instruction) -> Result<(), Illegal>
    requires net { IsNetOf net.now m.now }
    requires instruction { is_instruction m.now i.now ≡ true }
    ensures ok { OnOk result (is_legal m.now i.now ≡ true) }
    ensures err { OnErr result (is_legal m.now i.now ≡ false) }
    ensures first { MatchResult result
        (λ _. first_illegal m.now i.now ≡ None)
        (λ why. first_illegal m.now i.now ≡ Some why) }
{
    let taken = taken(m.templates.as_slice(), i.long);
    let moves = i.moves.as_slice();
    for (bus, slot) in moves.iter().enumerate() {
        if let Some(v) = slot {
            check_move(m, net, taken, &moves[..bus], *v)?;
        }
    }
    Ok(())
}
