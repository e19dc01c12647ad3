//! The memory that a file gives.

ghost use Rattle.std.specs.Prelude.{◌≡◌, ◌^◌, ◌≤◌, length, Ok, IfOk, IfErr};
ghost use Rattle.tta_input.specs.Input as spec;
ghost use Rattle.tta_input.specs.Lines.{lines_of};

use crate::error::InputError;
use crate::lines::Lines;
use std::alloc::Global;

/// The data space of so many words that an input file of at most 2^24 bytes fills: its words from
/// address 0, and zeros after them. It has exactly `words` elements.
///
/// `Refused` says the first line that is no word, or that is one more than the data space has
/// words, whichever comes first.
pub fn read_input(alloc: Global, bytes: &[u8], words: u32) -> Result<Vec<u32>, InputError>
    requires { length bytes.now ≤ 2 ^ 24 }
    ensures read { IfOk result (λ memory. spec.input_of words bytes.now ≡ Ok memory.items) }
    ensures whole { IfOk result (λ memory. length memory.items ≡ words) }
    ensures refused { IfErr result (spec.HasCause words bytes.now) }
{
    let space = words as usize;
    let mut memory = Vec::new(alloc);
    let mut lines = Lines::new(bytes);
    while let Some(line) = lines.next_line() {
        match word_of(line) {
            Some(word) if memory.len() < space => memory.push(word)?,
            _ => {
                return Err(InputError::Refused {
                    line: memory.len() as u32 + 1,
                });
            }
        }
    }
    memory.resize(space, 0)?;
    Ok(memory)
}

/// How many lines a file has.
fn count_lines(bytes: &[u8]) -> u32
    requires { length bytes.now ≤ 2 ^ 24 }
    ensures { result ≡ length (lines_of bytes.now) }
{
    let mut count = 0;
    let mut lines = Lines::new(bytes);
    while lines.next_line().is_some() {
        count += 1;
    }
    count
}

/// The words of a stream's file of at most 2^24 bytes, as many as it has lines.
///
/// `Refused` says the first line that is no word.
pub fn read_stream(alloc: Global, bytes: &[u8]) -> Result<Vec<u32>, InputError>
    requires { length bytes.now ≤ 2 ^ 24 }
    ensures read { IfOk result (λ words. spec.stream_of bytes.now ≡ Ok words.items) }
    ensures refused { IfErr result (spec.IsStreamCause bytes.now) }
{
    let count = count_lines(bytes);
    read_input(alloc, bytes, count)
}

/// The word of a line, where it is one.
fn word_of(line: &[u8]) -> Option<u32>
    ensures { result ≡ spec.word_of line.now }
{
    let mut bytes = [0; 4];
    match hex::decode_to_slice(line, &mut bytes) {
        Ok(()) => Some(u32::from_be_bytes(bytes)),
        Err(_) => None,
    }
}
