//! All lines of links.

ghost use Rattle.std.specs.Prelude.{◌≡◌, ◌≤◌, ◌^◌, length, IfOk, IfErr, Ok};
ghost use Rattle.tta_topology.specs.Text.{links_of, HasCause};

use crate::error::LinksError;
use crate::link::take_line;
use std::alloc::Global;
use tta_parse::Lines;

/// The links of so many cores: for each, the core whose outputs are its input, `None` where no line
/// feeds it. `Refused` reports the first line that is refused.
pub fn read_links(alloc: Global, text: &[u8], cores: u8) -> Result<Vec<Option<u8>>, LinksError>
    requires short { length text.now ≤ 2 ^ 24 }
    requires few { cores ≤ 8 }
    ensures links { IfOk result (λ v. links_of cores text.now ≡ Ok v.items) }
    ensures count { IfOk result (λ v. length v.items ≡ cores) }
    ensures refused { IfErr result (HasCause cores text.now) }
{
    let mut feeds = vec![in alloc; None; cores as usize]?;
    let mut lines = Lines::new(text);
    let mut words = Vec::new(alloc);
    let mut line: u32 = 0;
    while lines.next_line(&mut words)? {
        line += 1;
        if let Err(refusal) = take_line(feeds.as_mut_slice(), words.as_slice()) {
            let code = refusal.code();
            return Err(LinksError::Refused { line, code });
        }
    }
    Ok(feeds)
}
