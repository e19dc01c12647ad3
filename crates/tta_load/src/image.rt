//! Code with data, as an image.

ghost use Rattle.tta_code.specs.Legal.{IsLegalWhole};
ghost use Rattle.tta_image.specs.Image.{Image};
ghost use Rattle.tta_load.specs.Held.{TakesBytes, FileEnds, MadeEnds, no_memory};
ghost use Rattle.tta_load.specs.Images.{IsImageFor, RefusesImage};

use crate::machine::MachineFile;
use crate::reading::read_file;
use crate::status::Status;
use std::alloc::Global;
use tta_code::Whole;
use tta_image::{ImageError, read_image, write_image};
use tta_ports::Files;

/// The code of an image with its data, for a machine.
pub fn whole_of(alloc: Global, bytes: &[u8], file: &MachineFile) -> Result<Whole, Status>
    ensures { TakesBytes (IsImageFor file.now) (RefusesImage file.now) bytes.now (λ w. w) result }
{
    match read_image(alloc, bytes, &file.machine, &file.digest) {
        Ok(whole) => Ok(whole),
        Err(ImageError::Refused { code, word, bus }) => Err(Status::BadImage { code, word, bus }),
        Err(ImageError::NoMemory) => Err(Status::NoMemory),
    }
}

/// The code of the image of the file that a word names, with its data, for a machine.
pub fn whole_file<F: Files>(
    alloc: Global,
    files: &mut F,
    name: &str,
    word: u8,
    file: &MachineFile,
) -> Result<Whole, Status>
    ensures { FileEnds (IsImageFor file.now) (RefusesImage file.now) name.now word
        (F.world files.old) (F.world files.new) (λ w. w) result }
{
    let bytes = read_file(files, name, word)?;
    whole_of(alloc, bytes.as_slice(), file)
}

/// The image of code with data for a machine.
pub fn image_of_whole(alloc: Global, file: &MachineFile, whole: &Whole) -> Result<Vec<u8>, Status>
    requires { IsLegalWhole file.now.machine whole.now }
    ensures { MadeEnds (Image file.now.machine file.now.digest whole.now) no_memory
        (λ v. v.items) result }
{
    match write_image(alloc, whole, &file.machine, &file.digest) {
        Ok(image) => Ok(image),
        Err(_) => Err(Status::NoMemory),
    }
}
