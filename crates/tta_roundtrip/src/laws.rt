//! Laws of printed programs. A law is a function that does nothing, and whose contract is the law.

ghost use Rattle.tta_roundtrip.specs.Statement.{TextsReadBack, ConversionsReadBack, PrintedIsRead, TextsAreReadable, ConvertedIsReadable};

/// The printed text of a program that was read, or converted from one that was read, is read to the
/// program, but for its line numbers; and so is that of every program that can be read.
pub fn printed_is_read()
    ensures texts { TextsReadBack }
    ensures converted { ConversionsReadBack }
    ensures readable { PrintedIsRead }
{}

/// A program that was read can be read from its printed text, and so can one that is converted from
/// such.
pub fn texts_are_readable()
    ensures texts { TextsAreReadable }
    ensures converted { ConvertedIsReadable }
{}
