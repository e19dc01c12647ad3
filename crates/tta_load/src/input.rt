//! The words that a run is given: those of its data space, and those of its input.

ghost use Rattle.std.specs.Prelude.{◌≡◌, ◌≤◌, ◌^◌, length, option_map, IfOk};
ghost use Rattle.tta_load.specs.Held.{TakesBytes, FileEnds};
ghost use Rattle.tta_load.specs.Inputs.{Fills, RefusesInput, IsInput, RefusesStream};
ghost use Rattle.tta_load.specs.Inputs.{StreamEnds, GivenEnds};

use crate::reading::read_file;
use crate::status::Status;
use std::alloc::Global;
use tta_input::{InputError, read_input, read_stream};
use tta_ports::Files;

/// The data words that a file's bytes give, as many as the space has.
fn words_of(alloc: Global, bytes: &[u8], space: u32) -> Result<Vec<u32>, Status>
    requires { length bytes.now ≤ 2 ^ 24 }
    ensures takes { TakesBytes (Fills space) (RefusesInput space) bytes.now (λ v. v.items) result }
    ensures whole { IfOk result (λ v. length v.items ≡ space) }
{
    match read_input(alloc, bytes, space) {
        Ok(memory) => Ok(memory),
        Err(InputError::Refused { line }) => Err(Status::BadInput { line }),
        Err(InputError::NoMemory) => Err(Status::NoMemory),
    }
}

/// The words of an input that a file's bytes give.
fn stream_of(alloc: Global, bytes: &[u8]) -> Result<Vec<u32>, Status>
    requires { length bytes.now ≤ 2 ^ 24 }
    ensures { TakesBytes IsInput RefusesStream bytes.now (λ v. v.items) result }
{
    match read_stream(alloc, bytes) {
        Ok(words) => Ok(words),
        Err(InputError::Refused { line }) => Err(Status::BadStream { line }),
        Err(InputError::NoMemory) => Err(Status::NoMemory),
    }
}

/// The data words of the file that a word names, as many as the space has.
pub fn input_file<F: Files>(
    alloc: Global,
    files: &mut F,
    name: &str,
    word: u8,
    space: u32,
) -> Result<Vec<u32>, Status>
    ensures ends { FileEnds (Fills space) (RefusesInput space) name.now word
        (F.world files.old) (F.world files.new) (λ v. v.items) result }
    ensures whole { IfOk result (λ v. length v.items ≡ space) }
{
    let bytes = read_file(files, name, word)?;
    words_of(alloc, bytes.as_slice(), space)
}

/// The words of the file of the input that a word names.
fn named_stream<F: Files>(
    alloc: Global,
    files: &mut F,
    name: &str,
    word: u8,
) -> Result<Vec<u32>, Status>
    ensures { FileEnds IsInput RefusesStream name.now word
        (F.world files.old) (F.world files.new) (λ v. v.items) result }
{
    let bytes = read_file(files, name, word)?;
    stream_of(alloc, bytes.as_slice())
}

/// The words of the input: those of the file that a word names, or none where no file is named.
pub fn stream_file<F: Files>(
    alloc: Global,
    files: &mut F,
    stream: Option<&str>,
    word: u8,
) -> Result<Vec<u32>, Status>
    ensures { StreamEnds word (option_map (λ s. s.now) stream.entry)
        (F.world files.old) (F.world files.new) (λ v. v.items) result }
{
    match stream {
        Some(name) => named_stream(alloc, files, name, word),
        None => Ok(Vec::new(alloc)),
    }
}

/// What a run is given: the data words, and the words of the input.
#[derive(Drop)]
pub struct Given {
    pub memory: Vec<u32>,
    pub words: Vec<u32>,
}

/// The data words of the file that word 3 names, as many as the space has, and the words of the input,
/// whose file a word names where it is there.
pub fn given_files<F: Files>(
    alloc: Global,
    files: &mut F,
    input: &str,
    stream: Option<&str>,
    word: u8,
    space: u32,
) -> Result<Given, Status>
    ensures ends { GivenEnds word space input.now (option_map (λ s. s.now) stream.entry)
        (F.world files.old) (F.world files.new)
        (λ g. g.memory.items) (λ g. g.words.items) result }
    ensures whole { IfOk result (λ g. length g.memory.items ≡ space) }
{
    let memory = input_file(alloc, files, input, 3, space)?;
    let words = stream_file(alloc, files, stream, word)?;
    Ok(Given { memory, words })
}
