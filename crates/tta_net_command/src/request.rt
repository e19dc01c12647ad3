//! What is asked of a net.

ghost use Rattle.std.specs.Prelude.{◌≡◌, ◌≤◌, ◌^◌, length, IsTrue, IfSome};
ghost use Rattle.tta_net_command.specs.Request as spec;
ghost use Rattle.tta_net_command.specs.Request.{is_net};

use tta_load::digits_of;

/// A net makes fewer rounds than this.
const ROUNDS: u64 = (1 << 20) + 1;

/// How many cores a net has at most.
const MOST_CORES: usize = 8;

/// How many files each core has: those of its machine, its image and its data words.
pub const FILES: usize = 3;

/// A net that is asked for: how many rounds it makes at most, the file of its links, and three files
/// for each core.
#[derive(Clone, Copy)]
pub struct NetRequest<'w> {
    pub rounds: u32,
    pub links: &'w str,
    /// Of each core the machine's name, that of the image, and that of the data words.
    pub names: &'w [String],
    ghost few: { rounds ≤ 2 ^ 20 },
    ghost count: { IsTrue (is_net (length names.now)) },
}

/// The number of rounds that a word gives: one to seven decimal digits with a value of at most
/// 1,048,576. `None` for any other word.
pub fn rounds_of(word: &[u8]) -> Option<u32>
    ensures value { result ≡ spec.rounds_of word.now }
    ensures few { IfSome result (λ n. n ≤ 2 ^ 20) }
{
    let rounds = digits_of(word, 7, ROUNDS)?;
    Some(rounds as u32)
}

/// Whether so many names are three for each of one to eight cores.
pub fn is_net(names: usize) -> bool
    ensures { result ≡ spec.is_net names }
{
    0 < names && names <= MOST_CORES * FILES && names % FILES == 0
}
