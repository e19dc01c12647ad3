//! The text of a sample.

ghost use Rattle.std.specs.Prelude.{◌≡◌, ◌<◌, ◌≤◌, ◌^◌, length, IfOk};
ghost use Rattle.tta_sample.specs.Sample.{sample_text};

use crate::draw::next_number;
use crate::lines::push_body_line;
use std::alloc::{AllocError, Global};

/// The text of the program of a seed, with a body of so many lines, made by so many draws. It has
/// at most 2^24 bytes.
pub fn sample(alloc: Global, seed: u32, lines: u32) -> Result<Vec<u8>, AllocError>
    requires some { 1 ≤ lines }
    requires few { lines ≤ 20000 }
    ensures text { IfOk result (λ text. text.items ≡ sample_text seed lines) }
    ensures short { IfOk result (λ text. length text.items ≤ 2 ^ 24) }
{
    let mut out = Vec::new(alloc);
    out.extend_from_slice(
        b"proc main\nv0 = 1\nv1 = 2\nv2 = 3\nv3 = 4\nv4 = 5\nv5 = 6\nv6 = 7\nv7 = 8\nn = 16\nT:\n",
    )?;
    let mut x = seed;
    let mut k = 0u32;
    'lines: while k < lines {
        x = next_number(x);
        push_body_line(&mut out, k, x)?;
        k += 1;
    }
    out.extend_from_slice(
        b"n = sub n 1\nif ne n 0 goto T\nout v0\nout v1\nout v2\nout v3\nout v4\nout v5\nout v6\nout v7\nhalt\nend\n",
    )?;
    Ok(out)
}
