//! Laws of images. A law is a function that does nothing, and whose contract is the law.

ghost use Rattle.tta_image.specs.Laws.{HasImage, HasOneImage, HasOneCode, DecodesImages};

/// Legal code has exactly one image for a machine and a digest: the one that `write_image` gives.
pub fn one_image()
    ensures some { HasImage }
    ensures one { HasOneImage }
{}

/// Bytes are the image of at most one code for a machine and a digest.
pub fn one_code()
    ensures { HasOneCode }
{}

/// Bytes decode to a code just where they are its image. So the reader takes every image, and
/// nothing else.
pub fn decodes_images()
    ensures { DecodesImages }
{}
