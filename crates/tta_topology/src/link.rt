//! One line of links.

ghost use Rattle.std.specs.Prelude.{◌≡◌, ◌<◌, ◌≤◌, length, map, MatchResult, Ok, Err, slice_index_or};
ghost use Rattle.std.specs.Prelude.{is_some, None, Some};
ghost use Rattle.std.specs.List.{list_any};
ghost use Rattle.tta_parse.specs.Lines.{plain};
ghost use Rattle.tta_topology.specs.Links as spec;

use crate::error::Refusal;
use tta_parse::Word;

/// The two numbers of a `link` line.
fn link_of(words: &[Word<'_>]) -> Option<(u32, u32)>
    ensures { result ≡ spec.link_of (map plain words.now) }
{
    match words {
        [link, from, to] => {
            if !link.is_keyword(b"link") {
                return None;
            }
            let from = from.value()?;
            let to = to.value()?;
            Some((from, to))
        }
        _ => None,
    }
}

/// Whether a core feeds one.
fn feeds_one(feeds: &[Option<u8>], core: u8) -> bool
    ensures { result ≡ list_any (spec.is_fed_by core) feeds.now }
{
    feeds.iter().any(|feeder| *feeder == Some(core))
}

/// Whether a core is fed.
fn is_fed(feeds: &[Option<u8>], core: usize) -> bool
    requires { core < length feeds.now }
    ensures { result ≡ is_some (slice_index_or feeds.now core None) }
{
    feeds[core].is_some()
}

/// Joins a core's outputs to the input of another.
fn join(feeds: &mut [Option<u8>], from: u32, to: u32) -> Result<(), Refusal>
    requires { length feeds.old ≤ 8 }
    ensures joined { MatchResult result (λ _. spec.joined feeds.old from to ≡ Ok feeds.new)
        (λ e. spec.joined feeds.old from to ≡ Err e) }
{
    if from as usize >= feeds.len() || to as usize >= feeds.len() {
        return Err(Refusal::Range);
    }
    let from = from as u8;
    let to = to as usize;
    if feeds_one(feeds, from) || is_fed(feeds, to) {
        return Err(Refusal::Twice);
    }
    feeds[to] = Some(from);
    Ok(())
}

/// Takes a line, which may be blank.
pub(crate) fn take_line(feeds: &mut [Option<u8>], words: &[Word<'_>]) -> Result<(), Refusal>
    requires { length feeds.old ≤ 8 }
    ensures taken { MatchResult result
        (λ _. spec.taken feeds.old (map plain words.now) ≡ Ok feeds.new)
        (λ e. spec.taken feeds.old (map plain words.now) ≡ Err e) }
{
    if words.is_empty() {
        return Ok(());
    }
    let Some((from, to)) = link_of(words) else {
        return Err(Refusal::Syntax);
    };
    join(feeds, from, to)
}
