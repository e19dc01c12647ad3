//! The numbers of channels, for tables with an entry for each channel.

ghost use Rattle.std.specs.Prelude.{◌≡◌};
ghost use Rattle.tta_reorder.specs.Rows.{if_so};

use tta_moves::numbers::{PLACES, UNITS};

/// The number of the data space. The channels before it are the places, by their numbers.
pub const DATA: usize = PLACES;

/// The number of the input and the output.
pub const TRAFFIC: usize = PLACES + 1;

/// The number of how a list goes on.
pub const ENDING: usize = PLACES + 2;

/// The number of the first part of the frame space, after which the others come.
pub const FRAME: usize = PLACES + 3;

/// How many parts of the frame space have a number.
pub const PARTS: usize = 1024;

/// How many channels have a number.
pub const CHANNELS: usize = FRAME + PARTS;

/// How many numbers there are where each unit has one too, after the channels.
pub const MARKED: usize = CHANNELS + UNITS;

/// A number, if something is so.
pub fn if_so(b: bool, k: usize) -> Option<usize>
    ensures { result ≡ if_so b k }
{
    if b { Some(k) } else { None }
}
