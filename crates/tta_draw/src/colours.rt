//! The colours of units and of moves.

ghost use Rattle.std.specs.Prelude.{◌≡◌};
ghost use Rattle.tta_draw.specs.CodePicture.{light_class, dark_class, move_class};

use tta_arch::Dest;

/// The class of one of the six colours.
fn light_class(n: u8) -> &'static [u8]
    ensures { result.now ≡ light_class n }
{
    match n {
        0 => b"u0",
        1 => b"u1",
        2 => b"u2",
        3 => b"u3",
        4 => b"u4",
        _ => b"u5",
    }
}

/// The class of one of the six colours where nothing is written on it.
pub fn dark_class(n: u8) -> &'static [u8]
    ensures { result.now ≡ dark_class n }
{
    match n {
        0 => b"b0",
        1 => b"b1",
        2 => b"b2",
        3 => b"b3",
        4 => b"b4",
        _ => b"b5",
    }
}

/// The class of a move.
pub fn move_class(dst: Dest) -> &'static [u8]
    ensures { result.now ≡ move_class dst }
{
    match dst {
        Dest::Trigger { unit, .. } => light_class(unit % 6),
        Dest::Jump | Dest::Call | Dest::Halt => b"control",
        Dest::Reg { .. } | Dest::Operand { .. } => b"move",
    }
}
