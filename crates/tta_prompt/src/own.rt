//! What the words of a line ask at a prompt alone.

ghost use Rattle.std.specs.Prelude.{◌≡◌, ◌^◌, ◌≤◌, length};
ghost use Rattle.tta_parse.specs.Lines.{plain};
ghost use Rattle.tta_debug.specs.Words.{words_of};
ghost use Rattle.tta_prompt.specs.Own as spec;
ghost use Rattle.tta_prompt.specs.Own.{own_by};

use tta_debug::next_word;
use tta_parse::Word;
use tta_text::Scanner;

/// What can be asked at a prompt alone.
#[derive(Clone, Copy, Debug, PartialEq, Eq)]
pub enum Own {
    /// The list of all commands.
    Help,
    /// All registers that are set.
    Regs,
    /// The instruction at an address.
    Code(u32),
    /// A word of the frame space.
    Slot(u32),
}

/// What one word asks.
fn bare(w: Word<'_>) -> Option<Own>
    ensures { result ≡ spec.bare (plain w.entry) }
{
    if w.is_keyword(b"help") {
        Some(Own::Help)
    } else if w.is_keyword(b"regs") {
        Some(Own::Regs)
    } else {
        None
    }
}

/// What two words ask.
fn with_one(w: Word<'_>, x: Word<'_>) -> Option<Own>
    ensures { result ≡ spec.with_one (plain w.entry) (plain x.entry) }
{
    if w.is_keyword(b"code") {
        let address = x.value()?;
        Some(Own::Code(address))
    } else if w.is_keyword(b"slot") {
        let slot = x.value()?;
        Some(Own::Slot(slot))
    } else {
        None
    }
}

/// What a line asks, where it is nothing that a script can ask.
#[tactic(auto, unfolding(tta_debug::specs::Words::words_of))]
pub fn read_own(line: &[u8]) -> Option<Own>
    requires { length line.now ≤ 2 ^ 24 }
    ensures { result ≡ own_by (words_of line.now) }
{
    let mut scanner = Scanner::new(line);
    let Some(w) = next_word(line, &mut scanner) else {
        return None;
    };
    let Some(x) = next_word(line, &mut scanner) else {
        return bare(w);
    };
    if next_word(line, &mut scanner).is_some() {
        return None;
    }
    with_one(w, x)
}
