//! How many words queues have, as a word of the command line says it.

ghost use Rattle.std.specs.Prelude.{◌≡◌, ◌<◌, ◌≤◌, ◌+◌, ◌++◌, length, take, drop, IfOk, OnOk};
ghost use Rattle.tta_inspect.specs.Depths as spec;

use std::alloc::{AllocError, Global};
use tta_list::power_of_two;
use tta_load::digits_of;

/// Queues have fewer words than this.
const WORDS: u64 = (1 << 16) + 1;

/// How many powers of two are numbers of words, from 2 on.
const POWERS: u8 = 16;

/// The first of so many exponents, from one on, of which a number is the power of two.
#[tactic(auto, using(crate::proofs::Powers::exponent_more))]
fn exponent_from(k: u8, left: u8, n: u64) -> Option<u8>
    requires { k + left < 64 }
    ensures { result ≡ spec.exponent_from k left n }
{
    if left == 0 {
        return None;
    }
    if power_of_two(u32::from(k)) == n {
        return Some(k);
    }
    exponent_from(k + 1, left - 1, n)
}

/// The exponent that some digits say as a number of words.
fn depth_of(digits: &[u8]) -> Option<u8>
    ensures { result ≡ spec.depth_of digits.now }
{
    let words = digits_of(digits, 5, WORDS)?;
    exponent_from(1, POWERS, words)
}

/// How many bytes stand before the first comma, or all of them where there is none.
fn comma_at(bytes: &[u8]) -> usize
    ensures at { result ≡ spec.comma_at bytes.now }
    ensures within { result ≤ length bytes.now }
{
    match bytes {
        [] => 0,
        [b, rest @ ..] => {
            if *b == b',' {
                return 0;
            }
            1 + comma_at(rest)
        }
    }
}

/// The first bytes, so many.
fn first_of(bytes: &[u8], at: usize) -> &[u8]
    ensures { result.now ≡ take at bytes.now }
{
    match bytes.get(..at) {
        Some(first) => first,
        None => bytes,
    }
}

/// The bytes after so many.
fn rest_of(bytes: &[u8], at: usize) -> &[u8]
    ensures { result.now ≡ drop at bytes.now }
{
    match bytes.get(at..) {
        Some(rest) => rest,
        None => b"",
    }
}

/// Whether bytes are so many numbers of words with commas between them.
#[tactic(auto, using(crate::proofs::Powers::is_list_more))]
fn is_list(count: u8, bytes: &[u8]) -> bool
    ensures { result ≡ spec.is_list count bytes.now }
{
    if count == 0 {
        return false;
    }
    let at = comma_at(bytes);
    if depth_of(first_of(bytes, at)).is_none() {
        return false;
    }
    if count == 1 {
        return at == bytes.len();
    }
    is_list(count - 1, rest_of(bytes, at + 1))
}

/// Whether a word says how many words the queues of so many cores have.
pub fn are_depths(count: u8, word: &str) -> bool
    ensures { result ≡ spec.are_depths count word.now }
{
    let bytes = word.as_bytes();
    depth_of(bytes).is_some() || is_list(count, bytes)
}

/// The exponent that some digits say, and 0 where they say none.
fn depth_or_zero(digits: &[u8]) -> u8
    ensures { result ≡ spec.depth_or_zero digits.now }
{
    match depth_of(digits) {
        Some(k) => k,
        None => 0,
    }
}

/// Adds the exponents that bytes say as so many numbers of words with commas between them.
fn add_list(found: &mut Vec<u8>, count: u8, bytes: &[u8]) -> Result<(), AllocError>
    ensures { OnOk result (found.new.items ≡ found.old.items ++ spec.list_in count bytes.now) }
{
    if count == 0 {
        return Ok(());
    }
    let at = comma_at(bytes);
    found.push(depth_or_zero(first_of(bytes, at)))?;
    add_list(found, count - 1, rest_of(bytes, at + 1))
}

/// The exponents that a word says for the queues of so many cores.
pub fn depths_in(alloc: Global, count: u8, word: &str) -> Result<Vec<u8>, AllocError>
    ensures { IfOk result (λ v. v.items ≡ spec.depths_in count word.now) }
{
    let bytes = word.as_bytes();
    if let Some(k) = depth_of(bytes) {
        return vec![in alloc; k; usize::from(count)];
    }
    let mut found = Vec::new(alloc);
    add_list(&mut found, count, bytes)?;
    Ok(found)
}
