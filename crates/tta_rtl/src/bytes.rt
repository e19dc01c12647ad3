//! The bits of code, as the bytes of an image have them.

ghost use Rattle.std.specs.Prelude.{◌≡◌, ◌<◌, ◌^◌, true, drop, IfOk};
ghost use Rattle.tta_code.specs.Legal.{IsLegalCode};
ghost use Rattle.tta_code.specs.Whole.{fits};
ghost use Rattle.tta_rtl.specs.Memories.{AreCodeBytes, bytes_before};

use crate::on::On;
use std::alloc::{AllocError, Global};
use tta_arch::Layout;
use tta_code::Whole;
use tta_image::write_image;

/// How many bytes stand before the instructions of an image with so many data.
fn bytes_before(count: usize) -> usize
    requires { count < 2 ^ 32 }
    ensures { result ≡ bytes_before count }
{
    if count == 0 { 48 } else { 52 + 8 * count }
}

/// The bytes after so many.
fn bytes_after(bytes: &[u8], before: usize) -> &[u8]
    ensures { result.now ≡ drop before bytes.now }
{
    match bytes.get(before..) {
        Some(rest) => rest,
        None => b"",
    }
}

/// How many bits an instruction has.
fn bits_of(layout: &Layout) -> u32
    ensures { result ≡ layout.now.width }
{
    layout.width
}

/// The bytes of the instructions of code.
pub fn code_bytes(
    alloc: Global,
    on: &On<'_>,
    digest: &[u8; 32],
    whole: &Whole,
) -> Result<Vec<u8>, AllocError>
    requires legal { IsLegalCode on.now.m.now whole.now.code }
    requires data { fits on.now.m.now.data_words whole.now.init ≡ true }
    ensures { IfOk result (λ v. AreCodeBytes on.now.m.now whole.now.code v.items) }
{
    on.m.rules();
    // Its bits are fewer than 2 to the 32, and so an image has fewer than 2 to the 64.
    let _width = bits_of(on.layout);
    let image = write_image(alloc, whole, on.m, digest)?;
    let before = bytes_before(whole.init.len());
    let mut body = Vec::new(alloc);
    body.extend_from_slice(bytes_after(image.as_slice(), before))?;
    Ok(body)
}
