//! Numbers that have a range.

ghost use Rattle.std.specs.Prelude.{◌≡◌, ◌≤◌, true};
ghost use Rattle.tta_machine.specs.Draft.{is_too_long};
ghost use Rattle.tta_arch.specs.Rules.{is_from_to};

/// The most buses of a machine.
pub const MOST_BUSES: usize = 16;

/// The most sockets of a machine.
pub const MOST_SOCKETS: usize = 128;

/// The most register files of a machine.
pub const MOST_FILES: usize = 8;

/// The most immediate units of a machine.
pub const MOST_IMMS: usize = 4;

/// The most operation units of a machine.
pub const MOST_UNITS: usize = 32;

/// The most operations of a unit.
pub const MOST_OPS: usize = 32;

/// The most guards of a machine.
pub const MOST_GUARDS: usize = 64;

/// The most templates of a machine.
pub const MOST_TEMPLATES: usize = 8;

/// The most registers of a file.
pub const MOST_REGISTERS: u32 = 64;

/// The most registers of an immediate unit.
pub const MOST_IMM_REGISTERS: u32 = 16;

/// The most reads of a file, or writes into it, in one cycle.
pub const MOST_PORTS: u32 = 16;

/// The greatest latency of an operation, in cycles.
pub const MOST_LATENCY: u32 = 16;

/// The greatest delay of a control move, in cycles.
pub const MOST_DELAY: u32 = 4;

/// The most bits of an address of code.
pub const MOST_ADDRESS_BITS: u32 = 16;

/// The bits of a word.
pub const WORD_BITS: u32 = 32;

/// The most bytes of a declared name.
const MOST_NAME_BYTES: usize = 64;

/// Whether a number lies from a least to a greatest.
pub fn is_from_to(least: u32, greatest: u32, number: u32) -> bool
    ensures value { result ≡ is_from_to least greatest number }
    ensures within { result ≡ true → number ≤ greatest }
{
    least <= number && number <= greatest
}

/// Whether a name has more bytes than a declared name may have.
pub fn is_too_long(name: &[u8]) -> bool
    ensures { result ≡ is_too_long name.now }
{
    name.len() > MOST_NAME_BYTES
}
