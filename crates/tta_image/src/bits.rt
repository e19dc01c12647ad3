//! The bits of bytes.

ghost use Rattle.std.specs.Prelude.{◌≡◌, ◌+◌, ◌-◌, ◌*◌, ◌/◌, ◌%◌, ◌<◌, ◌≤◌, ◌^◌, length, min};
ghost use Rattle.tta_image.specs.Decoding.{bits_in, field};

/// So many bits of a byte, after so many others, as a number.
fn part_of(byte: u8, after: usize, count: u32) -> u64
    requires { after + count ≤ 8 }
    ensures value { result ≡ byte / 2 ^ (8 - after - count) % 2 ^ count }
    ensures small { result < 2 ^ count }
{
    let shifted = u32::from(byte) >> (8 - after as u32 - count);
    u64::from(shifted % (1 << count))
}

/// The number with the bits of a part after those of a number.
fn joined(number: u64, part: u64, count: u32) -> u64
    requires fits { number * 2 ^ count + part < 2 ^ 64 }
    requires few { count ≤ 8 }
    ensures { result ≡ number * 2 ^ count + part }
{
    (number << count) + part
}

/// The number in so many bits, after so many others. It is put together from bytes and parts of
/// bytes.
pub fn number_at(bytes: &[u8], at: usize, width: u32) -> u64
    requires few { 8 * length bytes.now < 2 ^ 64 }
    requires small { width ≤ 64 }
    requires room { at + width ≤ 8 * length bytes.now }
    ensures { result ≡ field at width (bits_in bytes.now) }
{
    let mut number: u64 = 0;
    let mut done: u32 = 0;
    while done < width {
        let place = at + done as usize;
        let after = place % 8;
        let count = (8 - after as u32).min(width - done);
        number = joined(number, part_of(bytes[place / 8], after, count), count);
        done += count;
    }
    number
}
