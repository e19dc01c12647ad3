//! Why bytes are no image.

ghost use Rattle.std.specs.Prelude.{◌≡◌};
ghost use Rattle.tta_image.specs.Refusals.{code_of, of_all, of_word};
ghost use Rattle.tta_image.specs.declared.refusal.ImageError.TheVariants.{NoMemory};

use std::alloc::{AllocError, AllocFailed};
use thiserror::Error;

/// Why bytes are refused as an image. They are looked for in this order, but `Data` directly after
/// `Length`; `Field` and `Illegal` are looked for word by word.
#[derive(Clone, Copy, Debug, PartialEq, Eq, Error)]
pub enum ImageRefusal {
    /// The bytes do not begin with the mark of images.
    #[error("the bytes do not begin with the mark of images")]
    Magic,
    /// The version is neither 1 nor 2.
    #[error("the version is neither 1 nor 2")]
    Version,
    /// The digest is not that of the machine's text.
    #[error("the image is for another machine")]
    WrongMachine,
    /// A word is not as wide as an instruction of the machine.
    #[error("a word is not as wide as an instruction of the machine")]
    Width,
    /// There are more words than addresses, or the bytes are not as many as the data and the words
    /// ask for.
    #[error("the bytes are not as many as the data and the words ask for")]
    Length,
    /// A field of a word has no meaning.
    #[error("a field has no meaning")]
    Field,
    /// The machine cannot carry out the instruction of a word.
    #[error("the machine cannot carry out the instruction")]
    Illegal,
    /// A bit after the last word is not zero.
    #[error("a bit after the last word is not zero")]
    Padding,
    /// There are to be data and are none, or an address is not above the one before it or not one of
    /// the data space.
    #[error("the data are none, or their addresses do not rise within the data space")]
    Data,
}

/// Why no code was read.
#[derive(Clone, Copy, Debug, PartialEq, Eq, Error)]
pub enum ImageError {
    /// The bytes are refused with this number. A field is refused with its word, counted from 0,
    /// and its bus, an illegal instruction with its word, and a datum with its place, counted from
    /// 0, as the word; all else is 0.
    #[error("the image is refused at word {word}, bus {bus}, with code {code}")]
    Refused { code: u8, word: u32, bus: u8 },
    #[error("no memory")]
    NoMemory,
}

impl ImageRefusal {
    /// The number that a user is given.
    pub fn code(self) -> u8
        ensures { result ≡ code_of self }
    {
        match self {
            ImageRefusal::Magic => 40,
            ImageRefusal::Version => 41,
            ImageRefusal::WrongMachine => 42,
            ImageRefusal::Width => 43,
            ImageRefusal::Length => 44,
            ImageRefusal::Field => 45,
            ImageRefusal::Illegal => 46,
            ImageRefusal::Padding => 47,
            ImageRefusal::Data => 48,
        }
    }

    /// The refusal of the bytes as a whole.
    pub fn of_all(self) -> ImageError
        ensures { result ≡ of_all self }
    {
        self.of_word(0, 0)
    }

    /// The refusal of a word, at one of its buses.
    pub fn of_word(self, word: u32, bus: u8) -> ImageError
        ensures { result ≡ of_word word self bus }
    {
        ImageError::Refused {
            code: self.code(),
            word,
            bus,
        }
    }
}

impl From<AllocError> for ImageError {
    ghost from_gives = { λ _ e. e ≡ NoMemory };

    fn from(_: AllocError) -> ImageError {
        ImageError::NoMemory
    }
}

impl<T: Drop> From<AllocFailed<T>> for ImageError {
    ghost from_gives = { λ _ e. e ≡ NoMemory };

    fn from(_: AllocFailed<T>) -> ImageError {
        ImageError::NoMemory
    }
}
