//! What a number draws.

ghost use Rattle.std.specs.Prelude.{◌≡◌};
ghost use Rattle.tta_sample.specs.Sample as spec;

/// The number after another.
pub fn next_number(x: u32) -> u32
    ensures { result ≡ spec.next_number x }
{
    ((u64::from(x) * 1_664_525 + 1_013_904_223) % 4_294_967_296) as u32
}

/// The kind of a line.
pub fn kind_of(x: u32) -> u32
    ensures { result ≡ spec.kind_of x }
{
    x / 268_435_456
}

/// The first variable that a line reads.
pub fn first_of(x: u32) -> u32
    ensures { result ≡ spec.first_of x }
{
    x / 16_777_216 % 8
}

/// The second variable that a line reads.
pub fn second_of(x: u32) -> u32
    ensures { result ≡ spec.second_of x }
{
    x / 1_048_576 % 8
}

/// The variable that a line assigns.
pub fn assigned_of(x: u32) -> u32
    ensures { result ≡ spec.assigned_of x }
{
    x / 65_536 % 8
}

/// The variable that a line copies.
pub fn copied_of(x: u32) -> u32
    ensures { result ≡ spec.copied_of x }
{
    x / 4_096 % 8
}

/// The constant of a line.
pub fn constant_of(x: u32) -> u32
    ensures { result ≡ spec.constant_of x }
{
    x % 64
}
